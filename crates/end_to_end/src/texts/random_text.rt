//! The text of a random program: functions, a datum, and `main`.
use crate::texts::random_body::push_body;
use std::alloc::{AllocError, Global};
use std::fmt;
use text_maker::{TextMaker, say};

/// A sequence of numbers that looks random (xorshift).
#[derive(Drop)]
pub struct Random {
    state: u64,
}

impl Random {
    /// The sequence of a seed.
    pub fn new(seed: u64) -> Random {
        let state = seed.wrapping_mul(0x9e37_79b9_7f4a_7c15) ^ 0x2545_f491_4f6c_dd1d;
        Random {
            state: if state == 0 { 1 } else { state },
        }
    }

    /// The next number.
    pub fn next(&mut self) -> u64 {
        let mut x = self.state;
        x ^= x << 13;
        x ^= x >> 7;
        x ^= x << 17;
        self.state = x;
        x >> 8
    }

    /// A number below a small bound.
    pub fn below(&mut self, bound: u64) -> u64 {
        self.next().checked_rem(bound).unwrap_or(0)
    }

    /// One of some words.
    pub fn one_of<'a>(&mut self, words: &[&'a str]) -> &'a str {
        let at = self.below(words.len() as u64) as usize;
        words.get(at).copied().unwrap_or("")
    }
}

/// A value of a random function.
#[derive(Clone, Copy)]
pub enum Value<'a> {
    /// digits behind a sign
    Number(&'static str, u64),
    Word(&'static str),
    /// one of the temporaries of a class
    Temporary(&'a str, u64),
}

impl fmt::Display for Value<'_> {
    fn fmt<W: fmt::Write>(&self, f: &mut fmt::Formatter<W>) -> fmt::Result {
        match *self {
            Value::Number(sign, digits) => write!(f, "{sign}{digits}"),
            Value::Word(word) => write!(f, "{word}"),
            Value::Temporary(class, number) => write!(f, "%{class}{number}"),
        }
    }
}

/// How a function of the program is called.
#[derive(Drop)]
pub struct Signature {
    pub number: u64,
    pub result: &'static str,
    pub params: Vec<&'static str>,
}

/// How a function of this number is called: a result of one class, and up to ten parameters.
pub(crate) fn random_signature(
    alloc: Global,
    random: &mut Random,
    number: u64,
) -> Result<Signature, AllocError> {
    let mut params = Vec::new(alloc);
    for _ in 0..random.below(11) {
        params.push(random.one_of(&["w", "l"]))?;
    }
    Ok(Signature {
        number,
        result: random.one_of(&["w", "l"]),
        params,
    })
}

/// Adds the head of a function, up to its first label.
pub(crate) fn push_head(text: &mut TextMaker, own: &Signature) {
    say!(text; "function {} $f{}(", own.result, own.number);
    for (number, class) in own.params.iter().enumerate() {
        say!(text; "{class} %p{number}, ");
    }
    text.add(") {\n@start\n");
}

/// A program that ends, whatever the numbers are.
pub fn random_text(alloc: Global, seed: u64) -> Result<String, AllocError> {
    let mut random = Random::new(seed);
    let mut text = TextMaker::new(alloc);
    text.add("data $d = align 16 { l 1 2 3 4 5 6 7 -8 }\n");
    let mut known = Vec::new(alloc);
    for number in 0..random.below(4) {
        let own = random_signature(alloc, &mut random, number)?;
        push_head(&mut text, &own);
        push_body(
            &mut text,
            &mut random,
            known.as_slice(),
            own.params.as_slice(),
        );
        say!(text; "\tret %{}0\n}}\n", own.result);
        known.push(own)?;
    }
    text.add("export function w $main() {\n@start\n");
    push_body(&mut text, &mut random, known.as_slice(), &[]);
    text.add("\tstorel %l0, $d\n\t%l1 =l call $write(w 1, l $d, l 64)\n");
    text.add("\t%w0 =w xor %w0, %w1\n\tret %w0\n}\n");
    text.finish()
}
