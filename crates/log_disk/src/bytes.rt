//! Files as bytes: one that is written over, one that is cut, and one between two.
ghost use Rattle.std.specs.Prelude.{◌≡◌, ◌⊎◌, ℕ, ◌+◌, ◌<◌, ◌≤◌, ◌^◌, length, slice_index, drop, min, IfOk};
ghost use Rattle.log_disk.specs.Disk.{Holds, IsCut};
ghost use Rattle.log_disk.specs.Memory.{Between, IsSized};

use crate::picks::Picks;
use std::alloc::{AllocError, Global};

/// A byte of a file, 00 behind its end.
fn byte_at(file: &[u8], at: usize, i: usize) -> u8
    ensures { result ≡ slice_index file.now (at + i) }
{
    if at < file.len() && i < file.len() - at {
        file[at + i]
    } else {
        0
    }
}

/// Copies the bytes of a file from a place on, 00 behind its end.
pub(crate) fn copy_from(file: &[u8], at: usize, buf: &mut [u8])
    ensures { (j : ℕ) → j < length buf.new → slice_index buf.new j ≡ slice_index file.now (at + j) }
{
    for i in 0..buf.len() {
        buf[i] = byte_at(file, at, i);
    }
}

/// The bytes from a place on, none where they end before it.
fn rest_from(bytes: &[u8], at: usize) -> &[u8]
    ensures { result.now ≡ drop at bytes.now }
{
    if at < bytes.len() {
        bytes.split_at(at).1
    } else {
        &[]
    }
}

/// The first bytes of a file, 00 behind its end.
pub(crate) fn sized(alloc: Global, file: &[u8], len: usize) -> Result<Vec<u8>, AllocError>
    ensures { IfOk result (λ new. IsSized len file.now new.items) }
{
    let mut new = Vec::new(alloc);
    for i in 0..len {
        new.push(byte_at(file, 0, i))?;
    }
    Ok(new)
}

/// A file with bytes written over its own from a place on.
pub(crate) fn overwritten(
    alloc: Global,
    old: &[u8],
    at: usize,
    bytes: &[u8],
) -> Result<Vec<u8>, AllocError>
    requires { at + length bytes.now < 2 ^ 63 }
    ensures { IfOk result (λ new. Holds at bytes.now old.now new.items) }
{
    let mut new = sized(alloc, old, at)?;
    new.extend_from_slice(bytes)?;
    new.extend_from_slice(rest_from(old, at + bytes.len()))?;
    Ok(new)
}

/// A file cut to a length.
pub(crate) fn shortened(alloc: Global, old: &[u8], len: usize) -> Result<Vec<u8>, AllocError>
    ensures { IfOk result (λ new. IsCut len old.now new.items) }
{
    let len = if len < old.len() { len } else { old.len() };
    old[..len].to_vec(alloc)
}

/// A byte of one of two files.
fn one_of(one: &[u8], other: &[u8], from_other: bool, i: usize) -> u8
    ensures { (result ≡ slice_index one.now i) ⊎ (result ≡ slice_index other.now i) }
{
    if from_other {
        byte_at(other, 0, i)
    } else {
        byte_at(one, 0, i)
    }
}

/// A length from that of one file to that of the other.
fn length_between(picks: &mut Picks, one: usize, other: usize) -> usize
    requires { (one < 2 ^ 63) × (other < 2 ^ 63) }
    ensures { min one other ≤ result }
{
    if one < other {
        one + picks.below(other - one + 1)
    } else {
        other + picks.below(one - other + 1)
    }
}

/// How long a stretch is: a byte, a few of them, a sector or a page.
fn stretch_len(picks: &mut Picks) -> usize
    ensures { 0 < result }
{
    match picks.below(4) {
        0 => 1,
        1 => 60,
        2 => 512,
        _ => 4096,
    }
}

/// A file between two: stretches of one and of the other, as they are picked.
pub(crate) fn mixed(
    alloc: Global,
    picks: &mut Picks,
    one: &[u8],
    other: &[u8],
) -> Result<Vec<u8>, AllocError>
    ensures { IfOk result (λ new. Between one.now other.now new.items) }
{
    let len = length_between(picks, one.len(), other.len());
    let stretch = stretch_len(picks);
    let mut from_other = false;
    let mut new = Vec::new(alloc);
    for i in 0..len {
        if i % stretch == 0 {
            from_other = picks.below(2) == 1;
        }
        new.push(one_of(one, other, from_other, i))?;
    }
    Ok(new)
}
