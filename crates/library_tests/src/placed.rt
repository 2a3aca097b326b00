//! Images of programs: words as the GNU assembler gives them, and bytes of data.
ghost use Rattle.std.specs.Prelude.{◌≡◌, ◌<◌, length, nat_le};
ghost use Rattle.std.specs.List.{list_all};
ghost use Rattle.obj_link.specs.Prelude.{IsLinked};

use crate::same::is_number;
use crate::texts::{MAIN, checked};
use il_types::Checked;
use obj_link::laws::programs_fit;
use obj_link::linking::resolve::resolve;
use obj_link::placing::place::place;
use obj_link::{Image, Linked, SLOT};
use rv_isa::{Filling, Hole, Immediate, LoadOp, MachineCode, Partial, Register, Relocation};
use std::alloc::{AllocError, Global};
use std::process::Abort;
use std::test::Fail;

const X10: Register = Register { number: 10 };

const NOP_WORD: u32 = 0x0000_0013;

fn are_small(codes: &[MachineCode]) -> bool
    ensures { result ≡ list_all (λ c. nat_le (length c.words) 256) codes.now }
{
    codes.iter().all(|code| code.words().len() <= 256)
}

// The image of linked texts whose functions have these codes, of at most 256 words each.
fn image(
    alloc: Global,
    texts: &[Checked],
    linked: &Linked,
    codes: &[MachineCode],
) -> Result<Option<Image>, AllocError>
    requires { IsLinked texts.now linked.now }
{
    programs_fit();
    if codes.len() != linked.functions.len() {
        return Ok(None);
    }
    if !are_small(codes) {
        return Ok(None);
    }
    match place(alloc, codes, linked) {
        Ok(image) => Ok(Some(image)),
        Err(_) => Ok(None),
    }
}

// The image of texts whose functions have these codes.
fn image_of(alloc: Global, texts: &[Checked], codes: &[MachineCode]) -> Result<Image, Fail> {
    match resolve(alloc, texts) {
        Ok(linked) => match image(alloc, texts, &linked, codes)? {
            Some(image) => Ok(image),
            None => Err(Fail::from("no image")),
        },
        Err(_) => Err(Fail::from("not linked")),
    }
}

// MachineCode of so many words, without names.
fn words(alloc: Global, count: usize) -> Result<MachineCode, AllocError>
    requires { 0 < count }
{
    let words = vec![in alloc; NOP_WORD; count]?;
    Ok(MachineCode::new(words, Vec::new(alloc)))
}

// Two functions in front of `main`.
const OTHERS: &str = "function $one() {\n@s\nret\n}\nfunction $two() {\n@s\nret\n}\n";

// The start code goes to `main`, which stands 0x7d0 bytes below 0x11000, behind two functions of 256 words.
#[test]
fn first_words(rt: HostRuntime) -> Result<(), Fail> {
    let texts = checked(rt.alloc(), &[OTHERS, MAIN])?;
    let mut codes = Vec::new(rt.alloc());
    for count in [256, 256, 1] {
        codes.push(words(rt.alloc(), count)?)?;
    }
    let image = image_of(rt.alloc(), texts.as_slice(), codes.as_slice())?;
    let expected: &[u32] = &[
        0x00013503, 0x00810593, 0x000112b7, 0x8302829b, 0x000280e7, 0x05d00893, 0x00000073,
        0x04000893, 0x00000073, 0x00008067, 0x05d00893, 0x00000073,
    ];
    assert!(rt; image.code().starts_with(expected));
    is_number(&rt, image.code().len(), 12 + 256 + 256 + 1);
    Ok(())
}

// Numbers, a string, and addresses in `$e`, of `$main`, of `$exit` and beyond `$main`.
const DATA: &str =
    "data $d = { b 511 \"Hi\", l $e + 4 $main $exit $main + 1, z 2 }\ndata $e = { z 16 }\n";

// The image of these texts whose one function has this code.
fn image_of_one(alloc: Global, texts: &[&str], code: MachineCode) -> Result<Image, Fail> {
    let texts = checked(alloc, texts)?;
    let codes = vec![in alloc; code]?;
    image_of(alloc, texts.as_slice(), codes.as_slice())
}

#[test]
fn data_with_names(rt: HostRuntime) -> Result<(), Fail> {
    let code = words(rt.alloc(), 1)?;
    let image = image_of_one(rt.alloc(), &[MAIN, DATA], code)?;
    let expected: &[u8] = &[
        0xff, b'H', b'i', 0x34, 0x10, 1, 0, 0, 0, 0, 0, 0x30, 0, 1, 0, 0, 0, 0, 0, 0x28, 0, 1, 0,
        0, 0, 0, 0, 0, 0, 0, 0, 0, 0, 0, 0, 0, 0, 0, 0, 0, 0, 0, 0, 0, 0, 0, 0, 0,
    ];
    assert!(rt; image.data().starts_with(expected));
    is_number(&rt, image.data().len(), 48 + SLOT);
    Ok(())
}

// A word that becomes this instruction, for an address so far beyond the first name.
fn hole(word: usize, instruction: Partial, offset: Immediate) -> Hole
    ensures { result.word ≡ word }
{
    let relocation = Relocation {
        instruction,
        global: 0,
        offset,
    };
    Hole {
        word,
        filling: Filling::Part(relocation),
    }
}

// One function of three words, of which two wait for its own address: a load of eight bytes 1,072 bytes below it.
fn code(alloc: Global) -> Result<MachineCode, AllocError> {
    let words = vec![in alloc; NOP_WORD; 3]?;
    let below = Immediate { value: -1072 };
    let load = Partial::Load {
        op: LoadOp::Ld,
        rd: X10,
        rs1: X10,
    };
    let holes = vec![in alloc; hole(0, Partial::Upper(X10), below), hole(1, load, below)]?;
    Ok(MachineCode::new(words, holes))
}

#[test]
fn a_program_of_one_function(rt: HostRuntime) -> Result<(), Fail> {
    let code = code(rt.alloc())?;
    let image = image_of_one(rt.alloc(), &[MAIN, "data $d = { z 5 }\n"], code)?;
    let last: &[u32] = &[0x0001_0537, 0xc005_3503, NOP_WORD];
    is_number(&rt, image.code().len(), 15);
    assert!(rt; image.code().ends_with(last));
    assert!(rt; image.data() == [0u8; 16].as_slice());
    assert_eq!(rt; image.data_start(), 0x11000);
    Ok(())
}

fn data_stands_at(
    rt: &impl Abort,
    alloc: Global,
    words: usize,
    start: u64,
) -> Result<(), AllocError> {
    let code = vec![in alloc; 19; words]?;
    let slot = vec![in alloc; 7; SLOT]?;
    assert!(rt; code.len() < 2000 && !code.is_empty() && slot.len() == SLOT);
    let image = Image::new(code, slot);
    is_number(rt, image.code().len(), words);
    assert_eq!(rt; image.code_size(), (words as u64).saturating_mul(4));
    assert!(rt; image.data() == [7u8; 16].as_slice());
    assert_eq!(rt; image.data_start(), start);
    Ok(())
}

#[test]
fn data_stands_on_the_page_after_the_code(rt: HostRuntime) -> Result<(), Fail> {
    for (words, start) in [(1, 0x11000), (1024, 0x11000), (1025, 0x12000)] {
        data_stands_at(&rt, rt.alloc(), words, start)?;
    }
    Ok(())
}
