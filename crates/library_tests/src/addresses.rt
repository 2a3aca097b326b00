//! What the contracts cannot say: that the parts of addresses are the assembler's.

use rv_isa::encode::encode;
use rv_isa::{Immediate, LoadOp, Partial, Register, Relocation};

const X31: Register = Register { number: 31 };

// The two parts as the assembler's `%hi` and `%lo` give them, the lower one below 0, and an offset that carries into the upper one.
#[test]
fn parts_of_addresses(rt: HostRuntime) {
    let loads = Partial::Load {
        op: LoadOp::Ld,
        rd: X31,
        rs1: X31,
    };
    let jumps = Partial::Jump { rd: X31, rs1: X31 };
    let adds = Partial::Add { rd: X31, rs1: X31 };
    for (instruction, address, offset, word) in [
        (Partial::Upper(X31), 0x10ffc, 0, 0x0001_1fb7),
        (jumps, 0x10ffc, 0, 0xffcf_8fe7),
        (Partial::Upper(X31), 0x107fc, 8, 0x0001_1fb7),
        (loads, 0x107fc, 8, 0x804f_bf83),
        (adds, 0x107fc, 0, 0x7fcf_8f93),
    ] {
        let relocation = Relocation {
            instruction,
            global: 0,
            offset: Immediate { value: offset },
        };
        assert_eq!(rt; encode(relocation.relocated(address)), word, "{word:x}");
    }
}
