//! Texts that are made by a rule: too long to be written down, or one beside a limit.
use crate::texts::branches::push_branches;
use std::alloc::{AllocError, Global};
use text_maker::{TextMaker, say};

const MAIN: &str = "export function w $main() {\n@s\n";

/// A function that multiplies by 3 as often as it is told, and calls itself for that.
const TRIPLED: &str =
    "function l $g(l %x, l %k) {\n@s\njnz %k, @m, @e\n@m\n%k =l sub %k, 1\n%x =l mul %x, 3\n%x =l call $g(l %x, l %k)\n@e\nret %x\n}\n";

/// How many numbers live through all of a wide function.
const KEPT: u64 = 500;

/// Over how many temporaries a chain of copies goes.
const LINKS: u64 = 3_000;

/// Adds the texts of a rule of this size.
pub fn push_made(
    alloc: Global,
    texts: &mut Vec<Vec<u8>>,
    rule: &str,
    size: u64,
) -> Result<(), AllocError> {
    if rule == "empties" {
        for _ in 0..size {
            texts.push(Vec::new(alloc))?;
        }
        return Ok(());
    }
    let mut text = TextMaker::new(alloc);
    push_rule(&mut text, rule, size);
    texts.push(text.finish()?.as_bytes().to_vec(alloc)?)?;
    Ok(())
}

fn push_rule(text: &mut TextMaker, rule: &str, size: u64) {
    match rule {
        "copies" => copies(text, size),
        "adds" => adds(text, size),
        "parameters" => parameters(text, size),
        "arguments" => arguments(text, size),
        "temporaries" => temporaries(text, size),
        "functions" => functions(text, size),
        "blocks" => blocks(text, size),
        "heavy" => heavy(text, size),
        "phis" => phis(text, size, 300),
        "bytes" => bytes(text, size),
        "branches" => push_branches(text, size),
        "chain" => chain(text, size),
        "far" => far(text, size),
        "wide" => wide(text, size),
        "calls" => calls(text, size),
        "once" => once(text, size),
        _ => {}
    }
}

fn copies(text: &mut TextMaker, count: u64) {
    text.add(MAIN);
    text.repeat("%x =w copy 0\n", count);
    text.add("ret %x\n}\n");
}

// A loop over so many additions, gone round twice.
fn adds(text: &mut TextMaker, count: u64) {
    say!(text; "{MAIN}%x =w copy 0\n%k =w copy 0\n@t\njnz %k, @e, @b\n@b\n");
    text.repeat("%x =w add %x, 1\n", count);
    text.add("%k =w copy 1\njmp @t\n@e\nret %x\n}\n");
}

// The head of a function of so many parameters.
fn push_parameters(text: &mut TextMaker, count: u64) {
    text.add("function w $f(");
    for number in 0..count {
        say!(text; "w %p{number}, ");
    }
    text.add(") {\n@s\n");
}

fn parameters(text: &mut TextMaker, count: u64) {
    push_parameters(text, count);
    say!(text; "ret %p{}\n}}\n{MAIN}ret 0\n}}\n", count.saturating_sub(1));
}

// A function of so many parameters called with the numbers from 0: the last one, plus the first.
fn arguments(text: &mut TextMaker, count: u64) {
    push_parameters(text, count);
    let last = count.saturating_sub(1);
    say!(text; "%r =w add %p0, %p{last}\nret %r\n}}\n{MAIN}%r =w call $f(");
    for number in 0..count {
        say!(text; "w {number}, ");
    }
    text.add(")\nret %r\n}\n");
}

fn temporaries(text: &mut TextMaker, count: u64) {
    text.add(MAIN);
    for number in 0..count {
        say!(text; "%t{number} =w copy {number}\n");
    }
    let last = count.saturating_sub(1);
    say!(text; "%t0 =w add %t0, %t{last}\nret %t0\n}}\n");
}

// So many functions with `main`, each returning its number; `main` calls the last.
fn functions(text: &mut TextMaker, count: u64) {
    let others = count.saturating_sub(1);
    for number in 0..others {
        say!(text; "function w $f{number}() {{\n@s\nret {number}\n}}\n");
    }
    text.add(MAIN);
    let last = others.saturating_sub(1);
    say!(text; "%r =w call $f{last}()\nret %r\n}}\n");
}

// So many blocks of 64 KiB; the last byte of the last one is written and read.
fn blocks(text: &mut TextMaker, count: u64) {
    text.add(MAIN);
    text.repeat("%x =l alloc16 65521\n", count);
    text.add("%y =l add %x, 65520\nstoreb 77, %y\n%v =w loadub %y\nret %v\n}\n");
}

// So many functions that weigh 40,000 each.
fn heavy(text: &mut TextMaker, count: u64) {
    for number in 1..count {
        say!(text; "function w $f{number}() {{\n@s\n");
        text.repeat("%x =w copy 0\n", 39_998);
        text.add("ret %x\n}\n");
    }
    text.add(MAIN);
    text.repeat("%x =w copy 9\n", 39_998);
    text.add("ret %x\n}\n");
}

/// Adds a program with a block of so many phis and as many predecessors, entered again and again from the last of them, until the last phi has reached this number.
pub fn phis(text: &mut TextMaker, count: u64, most: u64) {
    say!(text; "{MAIN}%one =w copy 1\n");
    for number in 2..count {
        let next = number.saturating_add(1);
        say!(text; "@before{number}\njnz %one, @phis, @before{next}\n");
    }
    say!(text; "@before{count}\njmp @phis\n@again\njmp @phis\n@phis\n");
    // each takes its number from each block before the loop, and the next number from the loop
    for number in 0..count {
        say!(text; "%i{number} =w phi");
        for before in 2..count.saturating_add(1) {
            say!(text; " @before{before} {number},");
        }
        text.add(" @again %next\n");
    }
    let last = count.saturating_sub(1);
    say!(text; "%next =w add %i{last}, 1\n%less =w cultw %next, {most}\n");
    text.add("jnz %less, @again, @end\n@end\nret %next\n}\n");
}

// A text of so many bytes, most of them a comment.
fn bytes(text: &mut TextMaker, size: u64) {
    say!(text; "{MAIN}ret 0\n}}\n#");
    let length = text.len() as u64;
    text.repeat("c", size.saturating_sub(length));
}

// So many copies, of a number and then each of the one before.
fn chain(text: &mut TextMaker, count: u64) {
    say!(text; "{MAIN}%t0 =w copy 77\n");
    for number in 1..count {
        let from = number.saturating_sub(1) % LINKS;
        say!(text; "%t{} =w copy %t{from}\n", number % LINKS);
    }
    let last = count.saturating_sub(1) % LINKS;
    say!(text; "ret %t{last}\n}}\n");
}

// A loop over so many additions of long numbers, each one more than the one before, gone round once.
fn far(text: &mut TextMaker, count: u64) {
    say!(text; "{MAIN}%x =l copy 0\n%k =w copy 0\n@t\njnz %k, @e, @b\n@b\n");
    for number in 0..count {
        let value = 0x1234_5678_9abc_def1u64.wrapping_add(number);
        say!(text; "%x =l add %x, {value}\n");
    }
    text.add("%k =w copy 1\njmp @t\n@e\nret %x\n}\n");
}

// So many blocks, gone round twice, each of which adds 1 to one number and its own number to one of many. All are added in the end. Each block goes on at the next one; it
// would leave the loop early if `%one` were 0.
fn wide(text: &mut TextMaker, count: u64) {
    say!(text; "{MAIN}%sum =l copy 0\n%one =w copy 1\n%again =w copy 1\n");
    for number in 0..KEPT {
        say!(text; "%t{number} =l copy {number}\n");
    }
    for number in 0..count {
        let to = number % KEPT;
        let next = number.saturating_add(1);
        say!(text; "@b{number}\n%sum =l add %sum, 1\n%t{to} =l add %t{to}, {number}\n");
        say!(text; "jnz %one, @b{next}, @end\n");
    }
    say!(text; "@b{count}\n%more =w copy %again\n%again =w copy 0\n");
    text.add("jnz %more, @b0, @end\n@end\n");
    for number in 0..KEPT {
        say!(text; "%sum =l add %sum, %t{number}\n");
    }
    text.add("ret %sum\n}\n");
}

// So many calls of a leaf one behind the other, each given what the one before answered.
fn calls(text: &mut TextMaker, count: u64) {
    text.add("function w $f(w %x) {\n@s\n%y =w mul %x, 5\n%z =w add %y, 3\n");
    say!(text; "%r =w and %z, 255\nret %r\n}}\n{MAIN}%x =w copy 1\n");
    text.repeat("%x =w call $f(w %x)\n", count);
    text.add("ret %x\n}\n");
}

// A function of so many steps, every tenth of which calls another one, gone through twice, that is called in one place, in a loop.
fn once(text: &mut TextMaker, count: u64) {
    text.add(TRIPLED);
    text.add("function l $f(l %x) {\n@s\n%y =l copy %x\n%k =w copy 2\n@t\n");
    for number in 0..count {
        say!(text; "%z =l mul %y, {number}\n%x =l add %x, %z\n%y =l xor %y, %x\n");
        if number % 10 == 9 {
            text.add("%y =l call $g(l %y, l 2)\n");
        }
    }
    say!(text; "%k =w sub %k, 1\njnz %k, @t, @e\n@e\n%x =l add %x, %y\nret %x\n}}\n{MAIN}");
    text.add("%x =l copy 1\n%n =w copy 3\n@t\n%x =l call $f(l %x)\n");
    text.add("%n =w sub %n, 1\njnz %n, @t, @e\n@e\n%y =l shr %x, 8\n");
    text.add("%x =l xor %x, %y\nret %x\n}\n");
}
