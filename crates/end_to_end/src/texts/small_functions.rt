//! Random programs of many small functions. What is called is small, and calls stand in loops: so most calls of leaves can be done in place. Half of the leaves make
//! calls themselves, of leaves before them, by name and by pointer, and of `write`. As in other random programs, all temporaries are assigned before anything else,
//! divisors are odd and small, places lie inside the datum, and loops are counted.
use crate::texts::random_text::{Random, Signature, Value, push_head, random_signature};
use std::alloc::{AllocError, Global};
use text_maker::{TextMaker, say};

/// How many leaves there are, and how many functions that call them.
const LEAVES: u64 = 12;

const CALLERS: u64 = 4;

/// So many leaves make no calls; those behind them call these.
const QUIET: u64 = 6;

/// The leaves behind so many call these too.
const INNER: u64 = 9;

/// How many temporaries of each class a function has.
const COUNT: u64 = 3;

const CLASSES: [&str; 2] = ["w", "l"];

const OPERATIONS: [&str; 6] = ["add", "sub", "mul", "and", "or", "xor"];

const SHIFTS: [&str; 3] = ["shl", "shr", "sar"];

const DIVISIONS: [&str; 4] = ["div", "rem", "udiv", "urem"];

const ORDERS: [&str; 6] = ["eq", "ne", "slt", "sge", "ule", "ugt"];

const EXTENSIONS: [&str; 6] = ["extsw", "extuw", "extsh", "extuh", "extsb", "extub"];

const NUMBERS: [&str; 8] = [
    "0",
    "1",
    "-1",
    "77",
    "-2048",
    "2147483648",
    "4294967295",
    "-6442450945",
];

fn temporary<'a>(random: &mut Random, class: &'a str) -> Value<'a> {
    Value::Temporary(class, random.below(COUNT))
}

// A temporary that fits a place of this class, which a long does in each, or a number.
fn value<'a>(random: &mut Random, class: &'a str) -> Value<'a> {
    match random.below(5) {
        0 => Value::Word(random.one_of(&NUMBERS)),
        1 => temporary(random, "l"),
        _ => temporary(random, class),
    }
}

// An operation of one of these words on values of these classes, which has a result of the first.
fn push_operation(
    text: &mut TextMaker,
    random: &mut Random,
    words: &[&str],
    left: &str,
    right: &str,
) {
    let to = temporary(random, left);
    let word = random.one_of(words);
    let (one, other) = (value(random, left), value(random, right));
    say!(text; "{to} ={left} {word} {one}, {other}\n");
}

fn push_division(text: &mut TextMaker, random: &mut Random, class: &str) {
    say!(text; "%{class}d ={class} and {}, 62\n", value(random, class));
    say!(text; "%{class}d ={class} add %{class}d, 1\n");
    let to = temporary(random, class);
    let word = random.one_of(&DIVISIONS);
    say!(text; "{to} ={class} {word} {}, %{class}d\n", value(random, class));
}

fn push_comparison(text: &mut TextMaker, random: &mut Random, class: &str) {
    let of = random.one_of(&CLASSES);
    let to = temporary(random, class);
    let order = random.one_of(&ORDERS);
    let (one, other) = (value(random, of), value(random, of));
    say!(text; "{to} ={class} c{order}{of} {one}, {other}\n");
}

fn push_extension(text: &mut TextMaker, random: &mut Random) {
    let to = temporary(random, "l");
    let word = random.one_of(&EXTENSIONS);
    say!(text; "{to} =l {word} {}\n", value(random, "w"));
}

// A load or a store of eight bytes of the datum.
fn push_access(text: &mut TextMaker, random: &mut Random) {
    say!(text; "%a =l and {}, 56\n%a =l add $d, %a\n", value(random, "l"));
    if random.below(2) == 0 {
        say!(text; "{} =l loadl %a\n", temporary(random, "l"));
    } else {
        say!(text; "storel {}, %a\n", value(random, "l"));
    }
}

fn push_line(text: &mut TextMaker, random: &mut Random) {
    let class = random.one_of(&CLASSES);
    match random.below(10) {
        0 => push_division(text, random, class),
        1 => push_comparison(text, random, class),
        2 | 3 => push_extension(text, random),
        4 => push_access(text, random),
        5 => push_operation(text, random, &SHIFTS, class, "w"),
        _ => push_operation(text, random, &OPERATIONS, class, class),
    }
}

// A branch by a value to one of two blocks of this number, of which the first begins.
fn push_branch(text: &mut TextMaker, random: &mut Random, number: u64) {
    let on = value(random, "w");
    say!(text; "jnz {on}, @one{number}, @two{number}\n@one{number}\n");
}

// The first values of all temporaries: a parameter that fits the class, or is widened to it, or a number where there is none.
fn push_temporaries(text: &mut TextMaker, random: &mut Random, params: &[&'static str]) {
    for number in 0..COUNT {
        for class in CLASSES {
            let from = random.below(params.len() as u64);
            match params.get(from as usize) {
                Some(param) if class == "l" && *param == "w" => {
                    say!(text; "%l{number} =l extsw %p{from}\n");
                }
                Some(_) => say!(text; "%{class}{number} ={class} copy %p{from}\n"),
                None => {
                    say!(text; "%{class}{number} ={class} copy {}\n", random.one_of(&NUMBERS));
                }
            }
        }
    }
}

// Lines, and now and then a call: of one of so many functions, or of `write`.
fn push_leaf_lines(
    text: &mut TextMaker,
    random: &mut Random,
    known: &[Signature],
    callees: u64,
    most: u64,
) {
    for _ in 0..random.below(most) {
        push_line(text, random);
    }
    if callees > 0 {
        match random.below(4) {
            0 => push_write(text, random),
            1 | 2 => {
                let at = random.below(callees) as usize;
                if let Some(callee) = known.get(at) {
                    push_call(text, random, callee);
                }
            }
            _ => {}
        }
    }
}

// A byte is put out; the answer is now and then left out.
fn push_write(text: &mut TextMaker, random: &mut Random) {
    say!(text; "storeb {}, $byte\n", value(random, "w"));
    if random.below(2) == 0 {
        say!(text; "{} =l ", temporary(random, "l"));
    }
    text.add("call $write(w 1, l $byte, l 1)\n");
}

// Two ways that meet.
fn push_two_ways(text: &mut TextMaker, random: &mut Random, known: &[Signature], callees: u64) {
    push_branch(text, random, 0);
    push_leaf_lines(text, random, known, callees, 4);
    text.add("jmp @join\n@two0\n");
    push_leaf_lines(text, random, known, callees, 4);
    text.add("@join\n");
}

// A way out before the end.
fn push_early_return(
    text: &mut TextMaker,
    random: &mut Random,
    known: &[Signature],
    callees: u64,
    class: &str,
) {
    push_branch(text, random, 0);
    push_leaf_lines(text, random, known, callees, 3);
    say!(text; "ret {}\n@two0\n", value(random, class));
}

// A loop of one to four rounds.
fn push_loop(text: &mut TextMaker, random: &mut Random, known: &[Signature], callees: u64) {
    say!(text; "%n =w and {}, 3\n%n =w add %n, 1\n@loop\n", value(random, "w"));
    push_leaf_lines(text, random, known, callees, 5);
    text.add("%n =w sub %n, 1\njnz %n, @loop, @out\n@out\n");
}

fn push_start(text: &mut TextMaker, random: &mut Random, own: &Signature) {
    text.add(random.one_of(&["", "", "", "export "]));
    push_head(text, own);
    push_temporaries(text, random, own.params.as_slice());
}

// A small function, whose calls are of few functions before it: none, those that make no calls, or those that call only these too.
fn push_leaf(text: &mut TextMaker, random: &mut Random, known: &[Signature], own: &Signature) {
    let callees = if own.number < QUIET {
        0
    } else if own.number < INNER {
        QUIET
    } else {
        INNER
    };
    push_start(text, random, own);
    push_leaf_lines(text, random, known, callees, 5);
    match random.below(4) {
        0 => push_two_ways(text, random, known, callees),
        1 => push_early_return(text, random, known, callees, own.result),
        2 => push_loop(text, random, known, callees),
        _ => {}
    }
    push_leaf_lines(text, random, known, callees, 4);
    say!(text; "ret {}\n}}\n", value(random, own.result));
}

// A call by the name, or now and then by the address in the table; the result is now and then left out.
fn push_call(text: &mut TextMaker, random: &mut Random, callee: &Signature) {
    let (number, class) = (callee.number, callee.result);
    match random.below(8) {
        0 => {
            let place = number.wrapping_mul(8);
            say!(text; "%a =l add $table, {place}\n%a =l loadl %a\n");
            say!(text; "{} ={class} call %a(", temporary(random, class));
        }
        1 => say!(text; "call $f{number}("),
        _ => say!(text; "{} ={class} call $f{number}(", temporary(random, class)),
    }
    for class in &callee.params {
        say!(text; "{class} {}, ", value(random, *class));
    }
    text.add(")\n");
}

// A call of one of the functions, behind which temporaries are added to the sum.
fn push_call_of_one(text: &mut TextMaker, random: &mut Random, known: &[Signature]) {
    let at = random.below(known.len() as u64) as usize;
    if let Some(callee) = known.get(at) {
        push_call(text, random, callee);
        let class = random.one_of(&CLASSES);
        say!(text; "%sum =l mul %sum, 31\n%a =l extsw {}\n", temporary(random, class));
        say!(text; "%sum =l add %sum, %a\n%sum =l xor %sum, {}\n", temporary(random, "l"));
    }
}

// A line, a call, or a call on each of two ways.
fn push_step(text: &mut TextMaker, random: &mut Random, known: &[Signature], number: u64) {
    match random.below(4) {
        0 => push_line(text, random),
        1 => {
            push_branch(text, random, number);
            push_call_of_one(text, random, known);
            say!(text; "jmp @end{number}\n@two{number}\n");
            push_call_of_one(text, random, known);
            say!(text; "@end{number}\n");
        }
        _ => push_call_of_one(text, random, known),
    }
}

// A loop of one to three rounds of calls behind the first values; then the sum.
fn push_rounds(text: &mut TextMaker, random: &mut Random, known: &[Signature]) {
    let rounds = random.below(3).wrapping_add(1);
    say!(text; "%sum =l copy %l0\n%n =w copy {rounds}\n@loop\n");
    for number in 0..random.below(5).wrapping_add(4) {
        push_step(text, random, known, number);
    }
    text.add("%n =w sub %n, 1\njnz %n, @loop, @out\n@out\n");
}

fn push_functions(
    text: &mut TextMaker,
    random: &mut Random,
    alloc: Global,
) -> Result<Vec<Signature>, AllocError> {
    let mut known = Vec::new(alloc);
    for number in 0..LEAVES.wrapping_add(CALLERS) {
        let own = random_signature(alloc, random, number)?;
        if number < LEAVES {
            push_leaf(text, random, known.as_slice(), &own);
        } else {
            push_start(text, random, &own);
            push_rounds(text, random, known.as_slice());
            text.add("ret %sum\n}\n");
        }
        known.push(own)?;
    }
    Ok(known)
}

// The addresses of all functions.
fn push_table(text: &mut TextMaker, known: &[Signature]) {
    text.add("data $table = { l");
    for function in known {
        say!(text; " $f{}", function.number);
    }
    text.add(
        " }\ndata $d = align 16 { l 1 -2 3 4294967296 -5 2147483648 7 -8 }\ndata $byte = { z 1 }\n",
    );
}

// The function that exits with all bytes of the sum together.
fn push_main(text: &mut TextMaker, random: &mut Random, known: &[Signature]) {
    text.add("export function w $main() {\n@start\n");
    push_temporaries(text, random, &[]);
    push_rounds(text, random, known);
    for half in [32, 16, 8u64] {
        say!(text; "%a =l shr %sum, {half}\n%sum =l xor %sum, %a\n");
    }
    text.add("storel %sum, $d\n%a =l call $write(w 1, l $d, l 64)\nret %sum\n}\n");
}

/// A program of a dozen leaves, a few functions that call them in loops, and `main`. It puts out the bytes that leaves do and 64 more, and exits.
pub fn small_functions(alloc: Global, seed: u64) -> Result<String, AllocError> {
    let mut random = Random::new(seed);
    let mut text = TextMaker::new(alloc);
    let known = push_functions(&mut text, &mut random, alloc)?;
    push_table(&mut text, known.as_slice());
    push_main(&mut text, &mut random, known.as_slice());
    text.finish()
}
