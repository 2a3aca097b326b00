//! Strategies that answer what they shouldn't.
use cfg_live::Live;
use il_ast::Seq;
use regalloc::certificate::{Certificate, Transfer};
use regalloc::list::certificate_of;
use regalloc::strategy::Strategy;
use std::alloc::{AllocError, Global};
use vcode::{Location, VFunc};

/// One of the lists of a certificate.
#[derive(Clone, Copy, Debug)]
pub enum List {
    Params,
    Starts,
    Moves,
    Places,
}

/// What is done to a list.
#[derive(Clone, Copy, Debug, PartialEq, Eq)]
pub enum Cut {
    Shorter,
    Longer,
    Empty,
}

/// What a strategy answers for each function.
#[derive(Clone, Copy, Debug)]
pub enum Answer {
    /// nothing
    Nothing,
    /// lists without an element
    Blank,
    /// this place for each register
    Everywhere(Location),
    /// the right slots, but for one register too few, or too many
    Slots { more: bool },
    /// the right slots, with one of the certificate's lists cut
    OneList(List, Cut),
    /// a slot for each register, but where it is read another than where it was written
    OtherSlots,
    /// the right slots, every second time; else nothing
    EverySecondTime,
    /// the right slots, every second time; else, where a register is read, another slot than where it was written
    WrongEverySecondTime,
    /// x5 for this register, over calls too, and slots for the others
    OneInX5(u32),
    /// x5 to x27, in turn by the register's number
    InTurn,
    /// x10 to x17 for the first eight registers, each so many further round than where a parameter of that number comes in, and slots for the others
    Turned { by: u32 },
    /// x17 to x10 for them
    Backward,
    /// the right slots, with so many moves from place to place before each point
    Moves(Location, Location, u32),
}

/// Answers that.
#[derive(Drop)]
pub struct Fixed {
    alloc: Global,
    answer: Answer,
    asked: u64,
}

impl Fixed {
    pub fn new(alloc: Global, answer: Answer) -> Fixed {
        Fixed {
            alloc,
            answer,
            asked: 0,
        }
    }
}

// The place that a list has for a register.
fn place(answer: Answer, register: u32) -> Location {
    match answer {
        Answer::Everywhere(place) => place,
        Answer::OneInX5(one) if register == one => Location::Register(5),
        Answer::InTurn => Location::Register((register % 23) as u8 + 5),
        Answer::Turned { by } if register < 8 => {
            Location::Register((register.wrapping_add(by) % 8) as u8 + 10)
        }
        Answer::Backward if register < 8 => Location::Register(17 - register as u8),
        _ => Location::Slot(register),
    }
}

// Slots from 1 on, round to 0.
fn other_slots(alloc: Global, registers: u32) -> Result<Vec<Location>, AllocError> {
    let mut list = Vec::new(alloc);
    for register in 0..registers {
        list.push(Location::Slot(register.wrapping_add(1) % registers))?;
    }
    Ok(list)
}

fn blank(alloc: Global) -> Certificate {
    Certificate {
        params: Seq::new(alloc),
        everywhere: Seq::new(alloc),
        starts: Seq::new(alloc),
        moves: Seq::new(alloc),
        places: Seq::new(alloc),
    }
}

// How many items are left of so many.
fn left(cut: Cut, length: usize) -> usize {
    match cut {
        Cut::Shorter => length.saturating_sub(1),
        Cut::Longer => length,
        Cut::Empty => 0,
    }
}

// The first of these lists, and one more without an item where that is asked for.
fn cut_lists<T: Copy + Drop>(
    alloc: Global,
    lists: &[Seq<T>],
    cut: Cut,
) -> Result<Seq<Seq<T>>, AllocError> {
    let mut all = Seq::new(alloc);
    for list in lists.iter().take(left(cut, lists.len())) {
        all.push(list.try_clone(alloc)?)?;
    }
    if cut == Cut::Longer {
        all.push(Seq::new(alloc))?;
    }
    Ok(all)
}

fn cut_places(alloc: Global, places: &[Location], cut: Cut) -> Result<Seq<Location>, AllocError> {
    let mut all = Seq::new(alloc);
    for place in places.iter().take(left(cut, places.len())) {
        all.push(*place)?;
    }
    if cut == Cut::Longer {
        all.push(Location::Slot(0))?;
    }
    Ok(all)
}

fn cut_list(
    alloc: Global,
    certificate: &mut Certificate,
    list: List,
    cut: Cut,
) -> Result<(), AllocError> {
    match list {
        List::Params => {
            certificate.params = cut_places(alloc, certificate.params.as_slice(), cut)?
        }
        List::Starts => {
            certificate.starts = cut_lists(alloc, certificate.starts.as_slice(), cut)?
        }
        List::Moves => certificate.moves = cut_lists(alloc, certificate.moves.as_slice(), cut)?,
        List::Places => {
            certificate.places = cut_lists(alloc, certificate.places.as_slice(), cut)?
        }
    }
    Ok(())
}

// So many moves before each of so many points.
fn all_moves(
    alloc: Global,
    transfer: Transfer,
    count: u32,
    points: usize,
) -> Result<Seq<Seq<Transfer>>, AllocError> {
    let mut all = Seq::new(alloc);
    for _ in 0..points {
        let moves = vec![in alloc; transfer; count as usize]?;
        all.push(Seq::from_vec(moves))?;
    }
    Ok(all)
}

// The certificate of the answer's list, with what the answer asks for done to it.
fn certificate(
    alloc: Global,
    answer: Answer,
    function: &VFunc,
    live: &Live,
) -> Result<Certificate, AllocError> {
    let registers = function.registers;
    let length = match answer {
        Answer::Slots { more: true } => registers.saturating_add(1),
        Answer::Slots { more: false } => registers.saturating_sub(1),
        _ => registers,
    };
    let places = (0..length).map(|register| place(answer, register));
    let list: Vec<Location> = places.collect(alloc)?;
    let mut certificate = certificate_of(alloc, function, live, &list)?;
    match answer {
        Answer::Blank => certificate = blank(alloc),
        Answer::OneList(list, cut) => cut_list(alloc, &mut certificate, list, cut)?,
        Answer::OtherSlots => {
            let list = other_slots(alloc, registers)?;
            let other = certificate_of(alloc, function, live, &list)?;
            certificate.moves = other.moves;
            certificate.places = other.places;
        }
        Answer::Moves(from, to, count) => {
            let points = certificate.moves.len();
            certificate.moves = all_moves(alloc, Transfer { from, to }, count, points)?
        }
        _ => {}
    }
    Ok(certificate)
}

impl Strategy for Fixed {
    fn choose(&mut self, function: &VFunc, live: &Live) -> Option<Certificate> {
        self.asked = self.asked.wrapping_add(1);
        let is_second = self.asked % 2 == 0;
        let answer = match self.answer {
            Answer::EverySecondTime if is_second => Answer::Nothing,
            Answer::WrongEverySecondTime if is_second => Answer::OtherSlots,
            answer => answer,
        };
        match answer {
            Answer::Nothing => None,
            _ => certificate(self.alloc, answer, function, live).ok(),
        }
    }
}
