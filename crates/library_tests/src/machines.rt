//! What the contracts cannot say: that a machine does what the manual says, in its cases, and that calls succeed. Words come from the LLVM assembler.
use crate::refusing::Refusing;
use elf_file::{Loaded, read_image, write_image};
use obj_link::Image;
use rv_isa::{Fault, Register};
use rv_machine::{FlatRam, Machine, PageRam, Ram, StartError, Stop};
use std::alloc::{AllocError, Global};
use std::process::Abort;
use std::test::Fail;

const X1: Register = Register { number: 1 };

const X2: Register = Register { number: 2 };

const X5: Register = Register { number: 5 };

const X6: Register = Register { number: 6 };

const X10: Register = Register { number: 10 };

// The data of every program here, at 0x11000.
const DATA: [u8; 16] = [
    0x48, 0x69, 0x0a, 0x81, 0xf2, 0xf3, 0xf4, 0xf5, 0xf6, 0xf7, 0xf8, 0xf9, 0xfa, 0xfb, 0xfc, 0xfd,
];

// The file of a program of these words, read.
fn loaded(rt: &impl Abort, alloc: Global, code: &[u32]) -> Result<Loaded, Fail> {
    let code = code.to_vec(alloc)?;
    let data = DATA.to_vec(alloc)?;
    assert!(rt; !code.is_empty() && code.len() <= 1024 && data.len() == 16);
    let file = write_image(alloc, &Image::new(code, data))?;
    Ok(read_image(alloc, &file)?)
}

// A machine that starts at a program of these words.
fn started<R: Ram>(rt: &impl Abort, alloc: Global, code: &[u32]) -> Result<Machine<R>, Fail> {
    let file = loaded(rt, alloc, code)?;
    Ok(Machine::start(alloc, &file, &[])?)
}

// Takes so many steps, each of which succeeds.
fn steps<R: Ram>(rt: &impl Abort, machine: &mut Machine<R>, count: usize) {
    for _ in 0..count {
        let stop = machine.step();
        assert!(rt; stop == Ok(()), "{stop:?}");
    }
}

// A program, what it puts out and how it ends within so many instructions.
fn ends<R: Ram>(
    rt: &impl Abort,
    alloc: Global,
    code: &[u32],
    limit: u64,
    output: &[u8],
    wanted: Stop,
) -> Result<(), Fail> {
    let machine: Machine<R> = started(rt, alloc, code)?;
    let (bytes, stop) = machine.run(alloc, limit);
    assert!(rt; bytes.as_slice() == output, "{bytes:?}");
    assert_eq!(rt; stop, wanted);
    Ok(())
}

// write(1, 0x11000, 3), then exit(300).
const HELLO: [u32; 8] = [
    0x00100513, 0x000115b7, 0x00300613, 0x04000893, 0x0073, 0x12c00513, 0x05d00893, 0x0073,
];

// write(2, 0, 5), then exit of what that gave.
const BAD_DESCRIPTOR: [u32; 7] = [
    0x00200513, 0x0593, 0x00500613, 0x04000893, 0x0073, 0x05d00893, 0x0073,
];

// Stores 0x1122334455667788 at 0x0fffeffc, over the end of a page, loads it again and exits with its highest byte.
const ACROSS_PAGES: [u32; 15] = [
    0x0ffff2b7, 0xffc2829b, 0x00449337, 0x8cd3031b, 0x00e31313, 0x45530313, 0x00c31313, 0x66730313,
    0x00c31313, 0x78830313, 0x0062b023, 0x0002b503, 0x03855513, 0x05d00893, 0x0073,
];

// Counts to 3 by a branch back, skips an ebreak by jal and another by jalr to an odd address, and exits with the count.
const JUMPS: [u32; 12] = [
    0x00300293, 0x0513, 0x00150513, 0xfff28293, 0xfe029ce3, 0x008000ef, 0x00100073, 0x0317,
    0x00d300e7, 0x00100073, 0x05d00893, 0x0073,
];

fn programs<R: Ram>(rt: &impl Abort, alloc: Global) -> Result<(), Fail> {
    ends::<R>(rt, alloc, &HELLO, 8, b"Hi\n", Stop::Exit(44))?;
    ends::<R>(rt, alloc, &HELLO, 7, b"Hi\n", Stop::Limit)?;
    ends::<R>(rt, alloc, &BAD_DESCRIPTOR, 100, b"", Stop::Exit(247))?;
    ends::<R>(rt, alloc, &ACROSS_PAGES, 100, b"", Stop::Exit(0x11))?;
    ends::<R>(rt, alloc, &JUMPS, 100, b"", Stop::Exit(3))?;
    // ebreak
    ends::<R>(rt, alloc, &[0x0010_0073], 1, b"", Stop::Break)
}

#[test]
fn programs_over_flat_memory(rt: HostRuntime) -> Result<(), Fail> {
    programs::<FlatRam>(&rt, rt.alloc())
}

#[test]
fn programs_over_pages(rt: HostRuntime) -> Result<(), Fail> {
    programs::<PageRam>(&rt, rt.alloc())
}

fn has_byte<R: Ram>(rt: &impl Abort, machine: &Machine<R>, at: u64, wanted: Option<u8>) {
    let byte = machine.byte(at);
    assert!(rt; byte == wanted, "{byte:?} at {at:x}");
}

fn stands_at<R: Ram>(rt: &impl Abort, machine: &Machine<R>, wanted: u64) {
    let pc = machine.pc();
    assert_eq!(rt; pc, wanted);
}

fn register_has<R: Ram>(rt: &impl Abort, machine: &Machine<R>, register: Register, wanted: u64) {
    let value = machine.register(register);
    assert_eq!(rt; value, wanted);
}

fn permissions<R: Ram>(rt: &impl Abort, machine: &Machine<R>) {
    let code = machine.permission(0x10000);
    assert!(rt; code.executable && !code.readable);
    let data = machine.permission(0x11000);
    let behind = machine.permission(0x11010);
    assert!(rt; data.writable && !behind.readable);
}

// After the store over two pages.
fn stored<R: Ram>(rt: &impl Abort, machine: &Machine<R>) {
    stands_at(rt, machine, 0x1002c);
    register_has(rt, machine, X5, 0x0fff_effc);
    has_byte(rt, machine, 0x0fff_efff, Some(0x55));
    has_byte(rt, machine, 0x0fff_f000, Some(0x44));
    // the lowest byte of the first word, of the data, and nothing between
    has_byte(rt, machine, 0x10000, Some((ACROSS_PAGES[0] % 256) as u8));
    has_byte(rt, machine, 0x11000, Some(0x48));
    has_byte(rt, machine, 0x10ff0, None);
    permissions(rt, machine);
    assert!(rt; machine.output().is_empty());
}

// What can be read of a machine.
fn readers<R: Ram>(rt: &impl Abort, alloc: Global) -> Result<(), Fail> {
    let mut machine: Machine<R> = started(rt, alloc, &ACROSS_PAGES)?;
    stands_at(rt, &machine, 0x10000);
    has_byte(rt, &machine, 0x0fff_efff, Some(0));
    steps(rt, &mut machine, 11);
    stored(rt, &machine);
    Ok(())
}

#[test]
fn readers_over_both_memories(rt: HostRuntime) -> Result<(), Fail> {
    readers::<FlatRam>(&rt, rt.alloc())?;
    readers::<PageRam>(&rt, rt.alloc())
}

// write(0x700000001, 0x1100e, 3), and nothing behind it.
const WRITE_THREE: [u32; 8] = [
    0x00700513, 0x02051513, 0x00150513, 0x000115b7, 0x00e58593, 0x00300613, 0x04000893, 0x0073,
];

// The same of two bytes.
const WRITE_TWO: [u32; 8] = [
    0x00700513, 0x02051513, 0x00150513, 0x000115b7, 0x00e58593, 0x00200613, 0x04000893, 0x0073,
];

// A machine that comes to the last of these words.
fn at_last(rt: &impl Abort, alloc: Global, code: &[u32]) -> Result<Machine<FlatRam>, Fail> {
    let mut machine: Machine<FlatRam> = started(rt, alloc, code)?;
    steps(rt, &mut machine, code.len().saturating_sub(1));
    Ok(machine)
}

fn stops_with(rt: &impl Abort, machine: &mut Machine<FlatRam>, fault: Fault, pc: u64) {
    let stop = machine.step();
    assert!(rt; stop == Err(Stop::Fault(fault, pc)), "{stop:?}");
}

// A count that is partly unreadable puts out nothing, also when it is tried again.
#[test]
fn write_of_too_much(rt: HostRuntime) -> Result<(), Fail> {
    let mut machine = at_last(&rt, rt.alloc(), &WRITE_THREE)?;
    for _ in 0..2 {
        stops_with(&rt, &mut machine, Fault::Load, 0x1001c);
        assert!(rt; machine.output().is_empty());
    }
    Ok(())
}

// A jump out of the code is refused where it leads.
#[test]
fn write_of_all(rt: HostRuntime) -> Result<(), Fail> {
    let mut machine = at_last(&rt, rt.alloc(), &WRITE_TWO)?;
    steps(&rt, &mut machine, 1);
    assert!(rt; machine.output() == [0xfc, 0xfd].as_slice());
    register_has(&rt, &machine, X10, 2);
    stops_with(&rt, &mut machine, Fault::Fetch, 0x10020);
    Ok(())
}

// The eight bytes at an address, lowest first, where all of them are mapped.
fn double<R: Ram>(machine: &Machine<R>, at: u64) -> Option<u64> {
    let mut bytes = [0u8; 8];
    for (k, place) in bytes.iter_mut().enumerate() {
        *place = machine.byte(at.wrapping_add(k as u64))?;
    }
    Some(u64::from_le_bytes(bytes))
}

fn has_double<R: Ram>(rt: &impl Abort, machine: &Machine<R>, at: u64, wanted: u64) {
    let found = double(machine, at);
    assert!(rt; found == Some(wanted), "{found:?} at {at:x}");
}

// The stack pointer, and from there the count, two pointers, zeros and the words.
#[test]
fn arguments(rt: HostRuntime) -> Result<(), Fail> {
    let file = loaded(&rt, rt.alloc(), &HELLO)?;
    let machine: Machine<FlatRam> = Machine::start(rt.alloc(), &file, &[b"p", b"abc"])?;
    stands_at(&rt, &machine, 0x10000);
    register_has(&rt, &machine, X2, 0x1000_0000);
    register_has(&rt, &machine, X1, 0);
    for (at, wanted) in [
        (0x1000_0000u64, 2u64),
        (0x1000_0008, 0x1000_0038),
        (0x1000_0010, 0x1000_003a),
        (0x1000_0018, 0),
        (0x1000_0030, 0),
        (0x1000_0036, 0x0063_6261_0070_0000),
    ] {
        has_double(&rt, &machine, at, wanted);
    }
    Ok(())
}

// Why a machine does not start with these words.
fn refusal(alloc: Global, file: &Loaded, words: &[&[u8]]) -> Option<StartError> {
    let started: Result<Machine<FlatRam>, StartError> = Machine::start(alloc, file, words);
    started.err()
}

fn are_refused(rt: &impl Abort, alloc: Global, file: &Loaded, words: &[&[u8]]) {
    let refusal = refusal(alloc, file, words);
    assert!(rt; refusal == Some(StartError::Arguments));
}

fn many_words(alloc: Global, count: usize) -> Result<Vec<&'static [u8]>, AllocError> {
    let word: &[u8] = b"p";
    vec![in alloc; word; count]
}

#[test]
fn as_many_words_as_there_may_be(rt: HostRuntime) -> Result<(), Fail> {
    let file = loaded(&rt, rt.alloc(), &HELLO)?;
    let words = many_words(rt.alloc(), 1024)?;
    assert!(rt; refusal(rt.alloc(), &file, words.as_slice()).is_none());
    Ok(())
}

#[test]
fn words_past_their_limits(rt: HostRuntime) -> Result<(), Fail> {
    let file = loaded(&rt, rt.alloc(), &HELLO)?;
    let words = many_words(rt.alloc(), 1025)?;
    are_refused(&rt, rt.alloc(), &file, words.as_slice());
    are_refused(&rt, rt.alloc(), &file, &[b"a\0b"]);
    are_refused(&rt, rt.alloc(), &file, &[[1u8; 65_536].as_slice()]);
    Ok(())
}

// The first stop within so many steps.
fn first_stop<R: Ram>(machine: &mut Machine<R>, count: usize) -> Option<Stop> {
    (0..count).find_map(|_| machine.step().err())
}

// At the store, the eleventh word, with the address and the number in their registers, and zeros where they stood.
fn before_the_store<R: Ram>(rt: &impl Abort, machine: &Machine<R>) {
    stands_at(rt, machine, 0x10028);
    register_has(rt, machine, X5, 0x0fff_effc);
    register_has(rt, machine, X6, 0x1122_3344_5566_7788);
    has_double(rt, machine, 0x0fff_effc, 0);
}

// A store of 8 bytes of which the second page is refused stops for memory, and nothing has changed.
#[test]
fn second_page_refused(rt: HostRuntime) -> Result<(), Fail> {
    let mut machine: Machine<Refusing<PageRam>> = started(&rt, rt.alloc(), &ACROSS_PAGES)?;
    for count in [15, 1] {
        let stop = first_stop(&mut machine, count);
        assert!(rt; stop == Some(Stop::Memory), "{stop:?}");
        before_the_store(&rt, &machine);
    }
    Ok(())
}
