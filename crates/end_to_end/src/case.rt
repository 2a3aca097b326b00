//! One program of the table, with what is known of it.
use std::alloc::{AllocError, Global};
use test_report::told::Told;

/// Numbers that are known of a program, or that its runs are given.
#[derive(Clone, Copy, Default)]
pub struct Bounds {
    /// how many turns it is given, where not plenty
    pub limit: Option<u64>,
    pub turns: Option<u64>,
    pub price: Option<u64>,
    /// at least so many instructions of its file add
    pub additions: usize,
    /// at least so often linear scan names a register of the machine for a line or a jump
    pub registers: u64,
}

/// How a program is checked beside what is done with each.
#[derive(Clone, Copy, Default)]
pub struct Marks {
    /// strategies of every kind are tried on it
    pub is_tried: bool,
    /// its bytes by the two strategies of the compiler differ
    pub differs: bool,
    /// linear scan cuts a register of it
    pub is_cut: bool,
    /// it is large: it is compiled once
    pub is_large: bool,
}

/// A program, and what is known of it.
#[derive(Drop)]
pub struct Case {
    pub group: String,
    pub name: String,
    pub texts: Vec<Vec<u8>>,
    pub words: Vec<String>,
    /// its output and its end, or the refusal in place of the end
    pub wanted: Told,
    /// what its functions need and weigh, in order; empty where that isn't told
    pub needs: String,
    pub weights: String,
    pub bounds: Bounds,
    pub marks: Marks,
}

impl Case {
    pub fn new(alloc: Global, group: &str, name: &str) -> Result<Case, AllocError> {
        let group = String::from_str(alloc, group)?;
        let name = String::from_str(alloc, name)?;
        Ok(Case {
            group,
            name,
            texts: Vec::new(alloc),
            words: Vec::new(alloc),
            wanted: Told {
                end: String::new(alloc),
                output: Vec::new(alloc),
            },
            needs: String::new(alloc),
            weights: String::new(alloc),
            bounds: Bounds::default(),
            marks: Marks::default(),
        })
    }

    /// Whether the texts are refused.
    pub fn is_refused(&self) -> bool {
        self.wanted.end.as_str().starts_with("E") && self.wanted.end.as_str() != "E8"
    }

    /// How many turns the interpreter is given.
    pub fn turns_given(&self) -> u64 {
        self.bounds
            .limit
            .or(self.bounds.turns)
            .unwrap_or(1_000_000_000)
    }

    /// How many instructions the machine is given: the price where it is known.
    pub fn instructions_given(&self) -> u64 {
        let plenty = if self.wanted.is_lost() {
            1_000_000
        } else {
            1_000_000_000
        };
        self.bounds.price.or(self.bounds.limit).unwrap_or(plenty)
    }
}

/// A program of the table, with its texts and words as slices.
#[derive(Drop)]
pub struct Program<'p> {
    pub case: &'p Case,
    pub texts: Vec<&'p [u8]>,
    pub words: Vec<&'p [u8]>,
}

impl<'p> Program<'p> {
    /// The program of a case.
    pub fn of(alloc: Global, case: &'p Case) -> Result<Program<'p>, AllocError> {
        let texts = case.texts.iter().map(|text| text.as_slice());
        let words = case.words.iter().map(|word| word.as_bytes());
        Ok(Program {
            case,
            texts: texts.collect(alloc)?,
            words: words.collect(alloc)?,
        })
    }
}
