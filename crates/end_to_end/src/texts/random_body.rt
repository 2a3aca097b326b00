//! The body of a random function. All its temporaries are assigned and all bytes of its blocks written before anything else, divisors are odd and small, places
//! lie inside their blocks, and loops are counted: so all of it has a meaning.
use crate::texts::random_text::{Random, Signature, Value};
use text_maker::{TextMaker, say};

const BOTH: [&str; 6] = ["add", "sub", "mul", "and", "or", "xor"];

const DIVISIONS: [&str; 4] = ["div", "rem", "udiv", "urem"];

const SHIFTS: [&str; 3] = ["shl", "shr", "sar"];

const ORDERS: [&str; 10] = [
    "eq", "ne", "sle", "slt", "sge", "sgt", "ule", "ult", "uge", "ugt",
];

const COPIES: [&str; 2] = ["neg", "copy"];

const EXTENSIONS: [&str; 4] = ["extsh", "extuh", "extsb", "extub"];

const WORD_EXTENSIONS: [&str; 2] = ["extsw", "extuw"];

const LOADS: [&str; 6] = ["loadsw", "loaduw", "loadsh", "loaduh", "loadsb", "loadub"];

const STORES: [&str; 3] = ["storew", "storeh", "storeb"];

/// Where the bytes are that are read and written: two blocks and a datum.
const BASES: [&str; 3] = ["%b0", "%b1", "$d"];

const BLITS: [&str; 5] = ["%b0, %b1", "%b1, %b0", "$d, %b0", "%b1, $d", "%b0, %b0"];

const CLASSES: [&str; 2] = ["w", "l"];

/// How many temporaries of each class there are.
const COUNT: u64 = 8;

fn temporary<'a>(random: &mut Random, class: &'a str) -> Value<'a> {
    Value::Temporary(class, random.below(COUNT))
}

// A temporary of a class, or a number.
fn value<'a>(random: &mut Random, class: &'a str) -> Value<'a> {
    if random.below(5) == 0 {
        let number = random.next();
        let number = number >> (random.below(56) % 56);
        let sign = if random.below(2) == 0 { "" } else { "-" };
        return Value::Number(sign, number);
    }
    temporary(random, class)
}

// An operation of one of these words on values of these classes, which has a result of the first.
fn push_binary(text: &mut TextMaker, random: &mut Random, words: &[&str], left: &str, right: &str) {
    let to = temporary(random, left);
    let word = random.one_of(words);
    let (one, other) = (value(random, left), value(random, right));
    say!(text; "\t{to} ={left} {word} {one}, {other}\n");
}

// A quotient or remainder by an odd number below 128.
fn push_division(text: &mut TextMaker, random: &mut Random, class: &str) {
    say!(text; "\t%{class}d ={class} and {}, 126\n", temporary(random, class));
    say!(text; "\t%{class}d ={class} add %{class}d, 1\n");
    let to = temporary(random, class);
    let word = random.one_of(&DIVISIONS);
    say!(text; "\t{to} ={class} {word} {}, %{class}d\n", value(random, class));
}

fn push_comparison(text: &mut TextMaker, random: &mut Random) {
    let class = random.one_of(&CLASSES);
    let to = temporary(random, class);
    let order = random.one_of(&ORDERS);
    let of = random.one_of(&CLASSES);
    let (one, other) = (value(random, of), value(random, of));
    say!(text; "\t{to} ={class} c{order}{of} {one}, {other}\n");
}

// An operation of one of these words on a value of a class.
fn push_unary(text: &mut TextMaker, random: &mut Random, class: &str, words: &[&str], of: &str) {
    let to = temporary(random, class);
    let word = random.one_of(words);
    say!(text; "\t{to} ={class} {word} {}\n", value(random, of));
}

fn push_one(text: &mut TextMaker, random: &mut Random) {
    let class = random.one_of(&CLASSES);
    match random.below(3) {
        0 => push_unary(text, random, class, &COPIES, class),
        1 => push_unary(text, random, class, &EXTENSIONS, "w"),
        _ => push_unary(text, random, "l", &WORD_EXTENSIONS, "w"),
    }
}

// A load or a store, by a pointer to eight bytes of a block or of the datum, by what a temporary holds.
fn push_memory(text: &mut TextMaker, random: &mut Random) {
    say!(text; "\t%o =l and {}, 56\n", temporary(random, "l"));
    say!(text; "\t%a =l add {}, %o\n", random.one_of(&BASES));
    match random.below(4) {
        0 => say!(text; "\t{} =l loadl %a\n", temporary(random, "l")),
        1 => say!(text; "\tstorel {}, %a\n", value(random, "l")),
        2 => {
            let class = random.one_of(&CLASSES);
            let to = temporary(random, class);
            say!(text; "\t{to} ={class} {} %a\n", random.one_of(&LOADS));
        }
        _ => {
            let word = random.one_of(&STORES);
            say!(text; "\t{word} {}, %a\n", value(random, "w"));
        }
    }
}

// A call by the name or by a pointer, where there is a function.
fn push_call(text: &mut TextMaker, random: &mut Random, known: &[Signature]) {
    let at = random.below(known.len() as u64) as usize;
    let Some(callee) = known.get(at) else {
        return;
    };
    let (number, class) = (callee.number, callee.result);
    let is_by_pointer = random.below(3) == 0;
    let to = temporary(random, class);
    if is_by_pointer {
        say!(text; "\t%g =l copy $f{number}\n\t{to} ={class} call %g(");
    } else {
        say!(text; "\t{to} ={class} call $f{number}(");
    }
    for class in &callee.params {
        say!(text; "{class} {}, ", value(random, *class));
    }
    text.add(")\n");
}

fn push_instruction(text: &mut TextMaker, random: &mut Random, known: &[Signature]) {
    let class = random.one_of(&CLASSES);
    match random.below(12) {
        0 => push_division(text, random, class),
        1 => push_comparison(text, random),
        2 => push_one(text, random),
        3 | 4 => push_memory(text, random),
        5 => {
            let count = random.below(65);
            say!(text; "\tblit {}, {count}\n", random.one_of(&BLITS));
        }
        6 => push_call(text, random, known),
        7 => push_binary(text, random, &SHIFTS, class, "w"),
        _ => push_binary(text, random, &BOTH, class, class),
    }
}

fn push_instructions(text: &mut TextMaker, random: &mut Random, known: &[Signature]) {
    for _ in 0..random.below(7) {
        push_instruction(text, random, known);
    }
}

// A loop of a few rounds with two phis that exchange values, beside the one that counts, and a way round in it.
fn push_loop(text: &mut TextMaker, random: &mut Random, known: &[Signature], n: u64) {
    let rounds = random.below(5).wrapping_add(1);
    let on = random.below(COUNT);
    say!(text; "\tjmp @in{n}\n@in{n}\n\tjmp @loop{n}\n@loop{n}\n");
    say!(text; "\t%i{n} =w phi @in{n} {rounds}, @next{n} %j{n}\n");
    say!(text; "\t%x{n} =l phi @in{n} %l1, @next{n} %y{n}\n");
    say!(text; "\t%y{n} =l phi @in{n} %l2, @next{n} %x{n}\n");
    push_instructions(text, random, known);
    say!(text; "\tjnz %w{on}, @one{n}, @two{n}\n@one{n}\n");
    push_instructions(text, random, known);
    say!(text; "\tjmp @join{n}\n@two{n}\n");
    push_instructions(text, random, known);
    say!(text; "@join{n}\n\t%w{on} =w phi @one{n} %w3, @two{n} 7\n");
    push_instructions(text, random, known);
    say!(text; "\t%l1 =l xor %l1, %x{n}\n@next{n}\n\t%j{n} =w sub %i{n}, 1\n");
    say!(text; "\tjnz %j{n}, @loop{n}, @out{n}\n@out{n}\n");
}

// All temporaries and all bytes of the blocks.
fn push_start(text: &mut TextMaker, random: &mut Random, params: &[&'static str]) {
    text.add("\t%b0 =l alloc8 64\n\t%b1 =l alloc16 64\n\t%o =l copy 0\n");
    for number in 0..COUNT {
        let first = random.next();
        let second = random.below(1000);
        say!(text; "\t%w{number} =w copy {second}\n\t%l{number} =l copy {first}\n");
    }
    for number in 0..8 {
        let at = number * 8u64;
        say!(text; "\t%a =l add %b0, {at}\n\tstorel %l{number}, %a\n");
    }
    text.add("\tblit %b0, %b1, 64\n");
    for (number, class) in params.iter().enumerate() {
        say!(text; "\t%{class}0 ={class} xor %{class}0, %p{number}\n");
    }
}

/// Adds a body, which ends where a jump is wanted.
pub fn push_body(
    text: &mut TextMaker,
    random: &mut Random,
    known: &[Signature],
    params: &[&'static str],
) {
    push_start(text, random, params);
    for number in 0..random.below(3) {
        push_instructions(text, random, known);
        push_loop(text, random, known, number);
    }
    push_instructions(text, random, known);
}
