//! The checksum of bytes, at once or part by part.
//!
//! Eight tables of 1 KiB take eight bytes at a time: some six times as fast as a table that takes one.
ghost use Rattle.std.specs.Prelude.{◌≡◌, ℕ, ◌^◌, ◌<◌, bit_xor, slice_index};
ghost use Rattle.crc32c.specs.Remainders.{all_ones, after_bytes, checksum_of, complement, times_x_to};

use crate::tables::{AHEAD_0, AHEAD_1, AHEAD_2, AHEAD_3, AHEAD_4, AHEAD_5, AHEAD_6, AHEAD_7};
use std::marker::Model;

/// What a table has at a byte.
#[inline(always)]
fn entry(table: &[u32; 256], byte: u8) -> u32
    ensures { result ≡ slice_index table.now byte }
{
    table[byte as usize]
}

/// The remainder with one byte more.
fn after_byte(remainder: u32, byte: u8) -> u32
    ensures { result ≡ times_x_to 8 (bit_xor remainder byte) }
{
    let bits = remainder ^ byte as u32;
    entry(&AHEAD_0, (bits & 0xff) as u8) ^ (bits >> 8)
}

/// The remainder with eight bytes more, of which the first is the lowest of the word.
fn after_word(remainder: u32, word: u64) -> u32
    ensures { result ≡ times_x_to 64 (bit_xor remainder word) }
{
    let bits = remainder as u64 ^ word;
    let bytes = bits.to_le_bytes();
    entry(&AHEAD_7, bytes[0])
        ^ (entry(&AHEAD_6, bytes[1])
            ^ (entry(&AHEAD_5, bytes[2])
                ^ (entry(&AHEAD_4, bytes[3])
                    ^ (entry(&AHEAD_3, bytes[4])
                        ^ (entry(&AHEAD_2, bytes[5])
                            ^ (entry(&AHEAD_1, bytes[6]) ^ entry(&AHEAD_0, bytes[7])))))))
}

/// A checksum in the making. Contracts see the remainder of the bytes that were added.
#[derive(Drop)]
pub struct Crc {
    remainder: u32,
}

impl Model for Crc {
    ghost use Rattle.std.specs.Prelude.{ℕ};

    ghost Value = { ℕ };

    ghost view = { λ c. c.remainder };
}

impl Crc {
    /// Of no bytes.
    pub fn new() -> Crc
        ensures { result ≡ all_ones }
    {
        Crc {
            remainder: u32::MAX,
        }
    }

    /// Adds bytes behind those that were added. Takes some 0.75 nanoseconds a byte, and more of few bytes.
    pub fn add(&mut self, bytes: &[u8])
        ensures { self.new ≡ after_bytes self.old bytes.now }
    {
        let mut remainder = self.remainder;
        let mut rest = bytes;
        while let Some((word, behind)) = rest.split_first_chunk::<8>() {
            remainder = after_word(remainder, u64::from_le_bytes(*word));
            rest = behind;
        }
        for byte in rest {
            remainder = after_byte(remainder, *byte);
        }
        self.remainder = remainder;
    }

    /// The checksum of all bytes that were added, which may go on.
    pub fn value(&self) -> u32
        ensures { result ≡ complement self.now }
    {
        !self.remainder
    }
}

/// The checksum of bytes.
pub fn crc32c(bytes: &[u8]) -> u32
    ensures { result ≡ checksum_of bytes.now }
{
    let mut crc = Crc::new();
    crc.add(bytes);
    crc.value()
}
