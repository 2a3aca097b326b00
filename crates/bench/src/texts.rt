//! Texts of any size.
use end_to_end::texts::made::phis;
use std::alloc::{AllocError, Global};
use text_maker::{TextMaker, say};

/// How many numbers live through all blocks of a wide function.
const KEPT: u64 = 3_990;

/// The text of a kind and size, as the table of measures has them.
pub fn text_of(alloc: Global, kind: &str, size: u64) -> Result<String, AllocError> {
    let mut text = TextMaker::new(alloc);
    match kind {
        "lines" => lines(&mut text, size),
        "locals" => locals(&mut text, size),
        "phi" => phi(&mut text, size),
        // with more than 195 the function passes the limit of weight
        "phis" => phis(&mut text, size, u64::from(u32::MAX)),
        "wide" => wide(&mut text, size),
        "bytes" => bytes(&mut text, size),
        "strings" => strings(&mut text, size),
        _ => functions(&mut text, size),
    }
    text.finish()
}

/// The lines of a function with a loop, behind its first one.
const LOOP: &str = "@start
@loop
\t%i =w phi @start 0, @loop %next
\t%sum =w phi @start 0, @loop %more
\t%more =w add %sum, %i
\t%next =w add %i, 1
\t%less =w csltw %next, %limit
\tjnz %less, @loop, @end
@end
\tret %more
}

";

fn functions(text: &mut TextMaker, count: u64) {
    for number in 1..count {
        say!(text; "function w $function{number}(w %limit) {{\n{LOOP}");
    }
    text.add("export function w $main() {\n@start\n\tret 0\n}\n");
}

fn lines(text: &mut TextMaker, count: u64) {
    text.add("export function w $main() {\n@start\n\t%t0 =w copy 0\n");
    for number in 0..count {
        let to = number % 3_999 + 1;
        let from = number % 4_000;
        say!(text; "\t%t{to} =w add %t{from}, {number}\n");
    }
    text.add("\tret %t0\n}\n");
}

fn locals(text: &mut TextMaker, count: u64) {
    text.add("export function w $main() {\n@start\n");
    for number in 0..3_990 {
        say!(text; "\t%l{number} =l alloc4 4\n");
    }
    for number in 0..count {
        let from = number % 3_990;
        let to = (from + 1) % 3_990;
        say!(text; "\t%t =w loadw %l{from}\n\t%t =w add %t, {number}\n\tstorew %t, %l{to}\n");
    }
    text.add("\tret 0\n}\n");
}

fn phi(text: &mut TextMaker, count: u64) {
    text.add("export function w $main() {\n@start\n");
    for number in 0..count {
        say!(text; "@from{number}\n\tjmp @to\n");
    }
    text.add("@to\n\t%x =w phi ");
    for number in 0..count {
        say!(text; "@from{number} {number}, ");
    }
    text.add("\n\tret %x\n}\n");
}

fn bytes(text: &mut TextMaker, count: u64) {
    text.add("export function w $main() {\n@start\n\tret 0\n}\ndata $d = { b ");
    for number in 0..count {
        say!(text; "{} ", number % 100 + 100);
    }
    text.add("}\n");
}

/// A field with a string of 64 characters, the last two of which are one byte.
const STRING: &str = "\tb \"What stands here is long enough to be a line of some program's\\n\",\n";

fn strings(text: &mut TextMaker, characters: u64) {
    text.add("export function w $main() {\n@start\n\tret 0\n}\ndata $d = {\n");
    text.repeat(STRING, characters / 64);
    text.add("\tb 0 }\n");
}

// Each block reads three of the temporaries that live throughout, writes a fourth one, and goes on at the next block or at the one behind it.
fn wide(text: &mut TextMaker, count: u64) {
    text.add("export function w $main() {\n@start\n\t%x =w copy 0\n");
    for number in 0..KEPT {
        say!(text; "\t%t{number} =w copy {number}\n");
    }
    for number in 0..count {
        let to = number % KEPT;
        let one = number.wrapping_mul(7) % KEPT;
        let other = number.wrapping_mul(31) % KEPT;
        let next = number.saturating_add(1);
        let second = next.saturating_add(1).min(count);
        say!(text; "@b{number}\n\t%y =w add %x, %t{one}\n\t%z =w xor %y, %t{other}\n");
        say!(text; "\t%t{to} =w sub %t{to}, %z\n\t%x =w add %z, {number}\n");
        say!(text; "\tjnz %y, @b{next}, @b{second}\n");
    }
    say!(text; "@b{count}\n");
    for number in 0..KEPT {
        say!(text; "\t%x =w add %x, %t{number}\n");
    }
    text.add("\tret %x\n}\n");
}
