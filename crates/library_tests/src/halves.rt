//! Numbers in 32 and 64 bits, and the fields that make one.
use bits::{fits12, low32, sext32, split};

#[test]
fn words(rt: HostRuntime) {
    assert_eq!(rt; sext32(0x7fff_ffff), 0x7fff_ffff);
    assert_eq!(rt; sext32(0x8000_0000), 0xffff_ffff_8000_0000);
    assert_eq!(rt; low32(0x1234_5678_9abc_def0), 0x9abc_def0);
    assert!(rt; fits12(2047) && fits12(-2048) && !fits12(2048) && !fits12(-2049));
}

/// The pairs that the GNU assembler's `%hi` and `%lo` give.
#[test]
fn splits(rt: HostRuntime) {
    for (number, upper, lower) in [
        (0x1234_5678, 0x12345, 0x678),
        (0x1234_5fff, 0x12346, -1),
        (0x800, 1, -2048),
        (0xffff_ffff, 0, -1),
        (0x7fff_f800, 0x80000, -2048),
    ] {
        let fields = split(number);
        assert_eq!(rt; fields.upper, upper, "{number:x}");
        assert_eq!(rt; fields.lower, lower, "{number:x}");
    }
}
