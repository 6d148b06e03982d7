//! Bytes as a table spells them.

use std::alloc::Global;
use std::process::Abort;

// The value of a digit.
fn digit(byte: u8) -> Option<u8> {
    match byte {
        b'0'..=b'9' => Some(byte - b'0'),
        b'a'..=b'f' => Some(byte - b'a' + 10),
        _ => None,
    }
}

/// The bytes that pairs of digits spell; whatever else is in the text is skipped.
pub fn bytes_of(rt: &impl Abort, alloc: Global, text: &str) -> Vec<u8> {
    let mut bytes = Vec::new(alloc);
    let mut high = None;
    for byte in text.as_bytes() {
        match (digit(*byte), high) {
            (None, _) => {}
            (Some(value), None) => high = Some(value),
            (Some(value), Some(first)) => {
                let whole = (first as u8).wrapping_mul(16).wrapping_add(value);
                bytes.push(whole).expect(rt, "memory");
                high = None;
            }
        }
    }
    bytes
}
