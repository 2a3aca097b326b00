//! A certificate of a list that gives each register one place.
ghost use Rattle.std.specs.Prelude.{◌≡◌, ◌<◌, ◌^◌, ◌++◌, [], ◌∷◌, map, length, if◌then◌else◌, slice_get, OnOk, IfOk};
ghost use Rattle.std.specs.Option.{option_map_or};
ghost use Rattle.cfg_live.specs.Rows.{uses, holds};
ghost use Rattle.certificates.specs.Listed.{place_in, with_place, with_places, with_written, point_places, has, live_places, listed_params, end_point, listed_starts, no_moves, nothing_listed, listed};

use crate::certificate::{Certificate, Equality, Transfer};
use cfg_live::numbering::jump_point;
use cfg_live::points::graph;
use cfg_live::{Live, Uses};
use il_ast::Seq;
use std::alloc::{AllocError, Global};
use vcode::{Block, Destination, Line, Location, VFunc};

/// Adds the equality of a register and its place, if the list has one.
fn push_place(
    equalities: &mut Seq<Equality>,
    list: &[Location],
    register: u32,
) -> Result<(), AllocError>
    ensures { OnOk result (equalities.new ≡ equalities.old ++ place_in list.now register) }
{
    match list.get(register as usize) {
        Some(place) => equalities.push(Equality {
            register,
            place: *place,
        }),
        None => Ok(()),
    }
}

fn has(equalities: &[Equality], register: u32) -> bool
    ensures { result ≡ has equalities.now register }
{
    equalities.iter().any(|e| e.register == register)
}

/// Adds it once.
fn push_once(
    equalities: &mut Seq<Equality>,
    list: &[Location],
    register: u32,
) -> Result<(), AllocError>
    ensures { OnOk result (equalities.new ≡ with_place list.now equalities.old register) }
{
    if has(equalities.as_slice(), register) {
        Ok(())
    } else {
        push_place(equalities, list, register)
    }
}

fn push_reads(
    equalities: &mut Seq<Equality>,
    list: &[Location],
    reads: &[u32],
) -> Result<(), AllocError>
    ensures { OnOk result (equalities.new ≡ with_places list.now equalities.old reads.now) }
{
    for register in reads {
        push_once(equalities, list, *register)?;
    }
    Ok(())
}

fn push_written(
    equalities: &mut Seq<Equality>,
    list: &[Location],
    written: Option<u32>,
) -> Result<(), AllocError>
    ensures { OnOk result (equalities.new ≡ with_written list.now equalities.old written) }
{
    match written {
        Some(register) => push_once(equalities, list, register),
        None => Ok(()),
    }
}

/// The places of the registers that a point names, each once.
fn places_of(alloc: Global, list: &[Location], uses: &Uses) -> Result<Seq<Equality>, AllocError>
    ensures { IfOk result (λ v. v ≡ point_places list.now uses.now) }
{
    let mut equalities = Seq::new(alloc);
    push_reads(&mut equalities, list, uses.reads.as_slice())?;
    push_written(&mut equalities, list, uses.writes)?;
    Ok(equalities)
}

/// Adds the place of a register that is live.
fn push_if_live(
    equalities: &mut Seq<Equality>,
    list: &[Location],
    live: &Live,
    point: usize,
    register: u32,
) -> Result<(), AllocError>
    ensures { OnOk result (equalities.new ≡ equalities.old ++ (if holds live.now point register then place_in list.now register else [])) }
{
    if live.holds(point, register) {
        push_place(equalities, list, register)
    } else {
        Ok(())
    }
}

fn push_live(
    equalities: &mut Seq<Equality>,
    list: &[Location],
    live: &Live,
    point: usize,
    registers: u32,
) -> Result<(), AllocError>
    ensures { OnOk result (equalities.new ≡ equalities.old ++ live_places list.now live.now point registers) }
{
    for register in 0..registers {
        push_if_live(equalities, list, live, point, register)?;
    }
    Ok(())
}

fn live_at(
    alloc: Global,
    list: &[Location],
    live: &Live,
    point: usize,
    registers: u32,
) -> Result<Seq<Equality>, AllocError>
    ensures { IfOk result (λ v. v ≡ live_places list.now live.now point registers) }
{
    let mut equalities = Seq::new(alloc);
    push_live(&mut equalities, list, live, point, registers)?;
    Ok(equalities)
}

fn push_param(
    params: &mut Seq<Location>,
    list: &[Location],
    register: u32,
) -> Result<(), AllocError>
    ensures { OnOk result (params.new ≡ params.old ++ option_map_or (λ q. q ∷ []) (slice_get list.now register) []) }
{
    match list.get(register as usize) {
        Some(place) => params.push(*place),
        None => Ok(()),
    }
}

fn push_params(
    params: &mut Seq<Location>,
    list: &[Location],
    from: &[Destination<u32>],
) -> Result<(), AllocError>
    ensures { OnOk result (params.new ≡ params.old ++ listed_params list.now from.now) }
{
    for param in from {
        push_param(params, list, param.place)?;
    }
    Ok(())
}

fn push_starts(
    alloc: Global,
    starts: &mut Seq<Seq<Equality>>,
    list: &[Location],
    live: &Live,
    registers: u32,
    blocks: &[Block<u32>],
) -> Result<(), AllocError>
    requires { end_point 0 blocks.now < 2 ^ 64 }
    ensures { OnOk result (starts.new ≡ starts.old ++ listed_starts list.now live.now registers 0 blocks.now) }
{
    let mut point = 0usize;
    for block in blocks {
        let known = live_at(alloc, list, live, point, registers)?;
        starts.push(known)?;
        point = jump_point(point, block.lines.as_slice()) + 1;
    }
    Ok(())
}

fn push_moves(
    alloc: Global,
    moves: &mut Seq<Seq<Transfer>>,
    points: &[Uses],
) -> Result<(), AllocError>
    ensures { OnOk result (moves.new ≡ moves.old ++ map no_moves points.now) }
{
    for _uses in points {
        moves.push(Seq::new(alloc))?;
    }
    Ok(())
}

fn push_places(
    alloc: Global,
    places: &mut Seq<Seq<Equality>>,
    list: &[Location],
    points: &[Uses],
) -> Result<(), AllocError>
    ensures { OnOk result (places.new ≡ places.old ++ map (point_places list.now) points.now) }
{
    for uses in points {
        let named = places_of(alloc, list, uses)?;
        places.push(named)?;
    }
    Ok(())
}

/// Fills a certificate that has nothing yet.
fn fill(
    alloc: Global,
    certificate: &mut Certificate,
    function: &VFunc,
    live: &Live,
    list: &[Location],
) -> Result<(), AllocError>
    requires { certificate.old ≡ nothing_listed }
    ensures { OnOk result (certificate.new ≡ listed function.now.code function.now.registers live.now list.now) }
{
    let blocks = function.code.blocks.as_slice();
    push_params(
        &mut certificate.params,
        list,
        function.code.params.as_slice(),
    )?;
    let graph = graph(alloc, function)?;
    let points = graph.uses.as_slice();
    // the graph has them all, so each has a number
    let _points = graph.uses.len();
    push_starts(
        alloc,
        &mut certificate.starts,
        list,
        live,
        function.registers,
        blocks,
    )?;
    push_moves(alloc, &mut certificate.moves, points)?;
    push_places(alloc, &mut certificate.places, list, points)
}

/// The certificate that gives register i place `list[i]` everywhere, without moves; where a block starts it names the live registers alone. A register
/// that the list is too short for has no place.
///
/// # Errors
///
/// Only where memory was refused.
pub fn certificate_of(
    alloc: Global,
    function: &VFunc,
    live: &Live,
    list: &[Location],
) -> Result<Certificate, AllocError>
    ensures { IfOk result (λ c. c ≡ listed function.now.code function.now.registers live.now list.now) }
{
    let mut certificate = Certificate {
        params: Seq::new(alloc),
        everywhere: Seq::new(alloc),
        starts: Seq::new(alloc),
        moves: Seq::new(alloc),
        places: Seq::new(alloc),
    };
    fill(alloc, &mut certificate, function, live, list)?;
    Ok(certificate)
}
