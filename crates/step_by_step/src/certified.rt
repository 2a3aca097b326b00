//! Certificates from texts, and as texts.
//!
//! A line `params` has the places of the parameters, `everywhere` what holds at the start of every block, and a line `start` for each block what else holds there. For each point
//! stand a line `moves` and a line `places`. A move is `P to P`, and `%N P` says that the place holds what the register has.
use crate::code_text::function::is_same;
use crate::code_text::place::Place;
use crate::code_text::words::Words;
use certificates::{Certificate, Equality, Transfer};
use il_ast::Seq;
use std::alloc::{AllocError, Global};
use text_maker::{TextMaker, say};
use vcode::Location;

/// What stands in a list, as text.
trait Part: Copy + Drop {
    fn read(text: &str) -> Option<Self>;

    fn write(self, to: &mut TextMaker);
}

impl Part for Location {
    fn read(text: &str) -> Option<Location> {
        Place::read(text.trim())
    }

    fn write(self, to: &mut TextMaker) {
        say!(to; "{}", self.word());
    }
}

impl Part for Equality {
    fn read(text: &str) -> Option<Equality> {
        let mut words = Words::of(text);
        Some(Equality {
            register: Place::read(words.next())?,
            place: Place::read(words.next())?,
        })
    }

    fn write(self, to: &mut TextMaker) {
        say!(to; "{} {}", self.register.word(), self.place.word());
    }
}

impl Part for Transfer {
    fn read(text: &str) -> Option<Transfer> {
        let (from, to) = text.trim().split_once(" to ")?;
        Some(Transfer {
            from: Place::read(from)?,
            to: Place::read(to)?,
        })
    }

    fn write(self, to: &mut TextMaker) {
        say!(to; "{} to {}", self.from.word(), self.to.word());
    }
}

fn parts<T: Part>(alloc: Global, list: &str) -> Option<Seq<T>> {
    let mut parts = Seq::new(alloc);
    if !list.is_empty() {
        for part in list.split(',') {
            parts.push(T::read(part)?).ok()?;
        }
    }
    Some(parts)
}

fn put_parts<T: Part>(to: &mut TextMaker, name: &str, parts: &[T]) {
    to.add(name);
    let mut separator = " ";
    for part in parts {
        to.add(separator);
        part.write(to);
        separator = ", ";
    }
    to.add("\n");
}

fn read(alloc: Global, text: &str) -> Option<Certificate> {
    let mut certificate = Certificate {
        params: Seq::new(alloc),
        everywhere: Seq::new(alloc),
        starts: Seq::new(alloc),
        moves: Seq::new(alloc),
        places: Seq::new(alloc),
    };
    for line in text.trim().lines().map(|line| line.trim()) {
        let (name, list) = line.split_once(' ').unwrap_or((line, ""));
        match name {
            "params" => certificate.params = parts(alloc, list)?,
            "everywhere" => certificate.everywhere = parts(alloc, list)?,
            "start" => certificate.starts.push(parts(alloc, list)?).ok()?,
            "moves" => certificate.moves.push(parts(alloc, list)?).ok()?,
            "places" => certificate.places.push(parts(alloc, list)?).ok()?,
            _ => return None,
        }
    }
    Some(certificate)
}

/// The text of a certificate.
pub fn certificate_text(alloc: Global, certificate: &Certificate) -> Result<String, AllocError> {
    let mut to = TextMaker::new(alloc);
    put_parts(&mut to, "params", certificate.params.as_slice());
    put_parts(&mut to, "everywhere", certificate.everywhere.as_slice());
    for start in certificate.starts.as_slice() {
        put_parts(&mut to, "start", start.as_slice());
    }
    let (moves, places) = (certificate.moves.as_slice(), certificate.places.as_slice());
    for point in 0..moves.len().max(places.len()) {
        if let Some(moves) = moves.get(point) {
            put_parts(&mut to, "moves", moves.as_slice());
        }
        if let Some(places) = places.get(point) {
            put_parts(&mut to, "places", places.as_slice());
        }
    }
    to.finish()
}

/// The certificate that a text describes. None where the text isn't what is written of one, or memory is refused.
pub fn certificate_of(alloc: Global, text: &str) -> Option<Certificate> {
    let certificate = read(alloc, text)?;
    let back = certificate_text(alloc, &certificate).ok()?;
    is_same(text, back.as_str()).then_some(certificate)
}

/// The places of a list.
pub fn places_of(alloc: Global, text: &str) -> Option<Seq<Location>> {
    parts(alloc, text)
}
