//! Why bytes of memory can't be loaded, stored or put out.
use crate::trace::source::Story;
use il_ast::Value;
use text_maker::say;

/// Says why so many bytes at an address are none that can be accessed. Answers whether they are none.
pub fn add_no_access(story: &mut Story<'_>, at: Option<Value>, count: u64) -> bool {
    let words = &mut story.words;
    match at {
        Some(Value::Integer(_)) => words.add("the address is a number, and no pointer"),
        Some(Value::Function(_)) => words.add("the address is a function"),
        Some(Value::Pointer { block, offset }) => {
            let from = offset.cast_signed();
            match story.running.block_size(block) {
                None => words.add("the block is dead, since its function has returned"),
                Some(size) if offset <= size as u64 && count <= size as u64 - offset => {
                    return false;
                }
                Some(_) if count == 1 => {
                    say!(words; "the byte at offset {from} is outside its block")
                }
                Some(_) => {
                    say!(words; "the {count} bytes from offset {from} on are outside its block")
                }
            }
        }
        None => return false,
    }
    true
}

/// Says which of so many bytes at an address is the first one that no number was stored to. Answers whether there is one.
pub fn add_blank(story: &mut Story<'_>, at: Option<Value>, count: u64) -> bool {
    let Some(Value::Pointer { block, offset }) = at else {
        return false;
    };
    let running = story.running;
    let mut bytes = (0..count).map(|k| offset.wrapping_add(k));
    let Some(byte) = bytes.find(|byte| !running.is_byte(block, *byte)) else {
        return false;
    };
    let byte = byte.cast_signed();
    let why = "nothing was stored there, or a part of a pointer";
    say!(story.words; "offset {byte} holds no number: {why}");
    true
}
