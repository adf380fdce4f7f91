//! The crate below all others: families, coins and errors. `req` tries the bytes of numbers of each
//! width.
use sketch_base::codec::Family;
use sketch_base::common::random::{RandomBits, SplitMix64, WordBits};
use sketch_base::error::{Error, ErrorKind};
use std::alloc::Global;

#[test]
fn knows_its_family(rt: HostRuntime) {
    assert!(rt;
        Family::KLL.validate_id(15).is_ok()
            && Family::KLL.validate_id(17).is_err()
            && Family::REQ.validate_id(17).is_ok()
    );
}

/// Returns whether the next numbers of a source are these.
fn gives(source: &mut SplitMix64, numbers: &[u64]) -> bool {
    for number in numbers {
        if source.next_u64() != *number {
            return false;
        }
    }
    true
}

/// `tests/program` tries the coins of seed 0.
#[test]
fn splitmix64_from_zero(rt: HostRuntime) {
    let numbers = [
        0xe220a8397b1dcdaf,
        0x6e789e6aa1b965f4,
        0x06c45d188009454f,
        0xf88bb8a8724c81ec,
    ];
    assert!(rt; gives(&mut SplitMix64::new(0), &numbers));
}

/// Returns whether the first draws from a source are these bits, and each is counted.
fn draws(source: &mut WordBits<'_>, bits: &[bool]) -> bool {
    for (drawn, bit) in bits.iter().enumerate() {
        if source.drawn() != drawn || source.random_bit() != *bit {
            return false;
        }
    }
    source.drawn() == bits.len()
}

#[test]
fn word_then_false(rt: HostRuntime) {
    let mut source = WordBits::new(&[true, false, true]);
    assert!(rt; draws(&mut source, &[true, false, true, false, false]));
}

/// Returns whether an error prints as this text.
fn prints(alloc: Global, error: &Error, text: &str) -> bool {
    match error.to_string(alloc) {
        Ok(printed) => printed.as_str() == text,
        Err(_) => false,
    }
}

/// Returns whether the error of a kind prints as this text, and gives its kind.
fn tells(alloc: Global, kind: ErrorKind, text: &str) -> bool {
    let error = Error::new(kind);
    error.kind() == kind && prints(alloc, &error, text)
}

#[test]
fn prints_its_kind(rt: HostRuntime) {
    let alloc = rt.alloc();
    assert!(rt;
        tells(alloc, ErrorKind::InvalidArgument, "invalid argument")
            && tells(alloc, ErrorKind::InvalidData, "invalid data")
            && tells(alloc, ErrorKind::OutOfMemory, "out of memory")
    );
}
