//! How fast programs are interpreted.
use crate::texts::text_of;
use il_ast::End;
use il_interp::interpret::interpret;
use obj_link::linking::resolve::resolve;
use qbec::texts::checked_texts;
use std::alloc::{AllocError, Global};

const ALU: &str = "export function w $main() {
@s
@l
%i =w phi @s 0, @l %j
%t =w phi @s 0, @l %u
%u =w add %t, %i
%v =w xor %u, %i
%x =w shl %v, 3
%j =w add %i, 1
%c =w cultw %j, 4294967295
jnz %c, @l, @e
@e
ret %x
}
";

const MEMORY: &str = "export function w $main() {
@s
%p =l alloc8 16
storel 0, %p
@l
%i =w phi @s 0, @l %j
%v =l loadl %p
%u =l add %v, 1
storel %u, %p
%j =w add %i, 1
%c =w cultw %j, 4294967295
jnz %c, @l, @e
@e
ret %j
}
";

const CALLS: &str = "function w $f(w %n) {
@s
jnz %n, @r, @b
@r
%m =w sub %n, 1
%x =w call $f(w %m)
ret %x
@b
ret 7
}
export function w $main() {
@s
%x =w call $f(w 50000)
ret %x
}
";

/// How the program of the texts ends within so many turns, or none where it is none or memory is refused.
pub fn end_of(alloc: Global, texts: &[&[u8]], words: &[&[u8]], turns: u64) -> Option<End> {
    let checked = checked_texts(alloc, texts).ok()?;
    let linked = resolve(alloc, checked.as_slice()).ok()?;
    let (_, end) = interpret(alloc, &linked, words, turns).ok()?;
    Some(end)
}

/// How the program of a kind ends after so many turns.
pub fn interpret_turns(alloc: Global, kind: &str, turns: u64) -> Result<String, AllocError> {
    let text = match kind {
        "memory" => String::from_str(alloc, MEMORY)?,
        "calls" => String::from_str(alloc, CALLS)?,
        "phis" => text_of(alloc, "phis", 195)?,
        _ => String::from_str(alloc, ALU)?,
    };
    match end_of(alloc, &[text.as_bytes()], &[], turns) {
        Some(end) => format!(in alloc; "{end:?} after at most {turns} turns"),
        None => String::from_str(alloc, "no program, or no memory"),
    }
}
