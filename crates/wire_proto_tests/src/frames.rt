//! Frames: headers at their bounds, and the spelling of each request.

use crate::asks::{Ask, frame, put_request};
use crate::hex::bytes_of;
use std::alloc::Global;
use std::process::Abort;
use test_support::{holds_at, same, same_at};
use wire_proto::{EncodeFault, FrameFault, Frames, Request, encode_request};

// What a header alone leads to: None where the frame is to be waited for, the kind of a request that is whole, or a
// fault.
static HEADERS: &[(&str, Result<Option<u8>, FrameFault>)] = &[
    ("", Ok(None)),
    ("010000 01", Ok(None)),
    ("04000000 01", Ok(None)),
    ("04000001 01", Err(FrameFault::TooLarge)),
    ("ffffffff 0e", Err(FrameFault::TooLarge)),
    ("00000010 01", Ok(None)),
    ("0000000f 01", Err(FrameFault::BadLength)),
    ("00000010 02", Ok(None)),
    ("00000011 02", Err(FrameFault::BadLength)),
    ("00000008 03", Ok(None)),
    ("00000007 03", Err(FrameFault::BadLength)),
    ("00000000 04", Ok(Some(4))),
    ("00000001 05", Err(FrameFault::BadLength)),
    ("00000000 06", Ok(Some(6))),
    ("00000000 07", Ok(Some(7))),
    ("00000010 08", Ok(None)),
    ("00000028 08", Ok(None)),
    ("00000027 08", Err(FrameFault::BadLength)),
    ("04000000 08", Ok(None)),
    ("00000000 09", Ok(Some(9))),
    ("00000038 0a", Ok(None)),
    ("00000039 0a", Err(FrameFault::BadLength)),
    ("00000009 0b", Ok(None)),
    ("00000008 0b", Err(FrameFault::BadLength)),
    ("00000000 0c", Ok(Some(12))),
    ("00000000 0d", Ok(Some(13))),
    ("0000001a 12", Ok(None)),
    ("00000019 12", Err(FrameFault::BadLength)),
    ("00000000 00", Err(FrameFault::UnknownKind)),
    ("00000000 0e", Err(FrameFault::UnknownKind)),
    ("00000010 81", Err(FrameFault::UnknownKind)),
];

fn kind(request: &Request) -> u8 {
    match request {
        Request::Put { .. } => 1,
        Request::Cell { .. } => 2,
        Request::Row { .. } => 3,
        Request::Status => 4,
        Request::Export => 5,
        Request::Save => 6,
        Request::Stop => 7,
        Request::PutCells { .. } => 8,
        Request::Stored => 9,
        Request::Range { .. } => 10,
        Request::Top { .. } => 11,
        Request::Stats => 12,
        Request::Fold => 13,
        Request::Groups { .. } => 18,
    }
}

// The kind of the next request.
fn next_kind(alloc: Global, frames: &mut Frames) -> Result<Option<u8>, FrameFault> {
    match frames.next(alloc) {
        Ok(Some(request)) => {
            let found = kind(&request);
            drop(request);
            Ok(Some(found))
        }
        Ok(None) => Ok(None),
        Err(fault) => Err(fault),
    }
}

// What a header leads to.
fn judge(rt: &impl Abort, alloc: Global, digits: &str) -> Result<Option<u8>, FrameFault> {
    let bytes = bytes_of(rt, alloc, digits);
    let mut frames = Frames::new(alloc);
    let fed = frames.feed(alloc, bytes.as_slice());
    let found = next_kind(alloc, &mut frames);
    drop(bytes);
    drop(frames);
    fed.expect(rt, "memory");
    found
}

#[test]
fn headers_are_judged_at_their_fifth_byte(rt: HostRuntime) {
    for (digits, expected) in HEADERS {
        let found = judge(&rt, rt.alloc(), digits);
        assert!(rt; same_at(&rt, digits, &found, expected));
    }
}

// The most bytes that a put's text may have are 67,108,848.
#[test]
fn a_put_that_is_one_byte_longer_has_no_frame(rt: HostRuntime) {
    let text = vec![in rt.alloc(); 37u8; 67_108_849].expect(&rt, "memory");
    let request = put_request(&rt, rt.alloc(), (7, 1), "", text.as_slice());
    let fault = encode_request(rt.alloc(), &request).err();
    drop(request);
    drop(text);
    assert!(rt; same(&rt, &fault, &Some(EncodeFault::TooLarge)));
}

// The spelling of each request.
static SPELLED: &[(Ask, &str)] = &[
    (
        Ask::Put(7, 1, ""),
        "00000041 01 0000000000000007 0000000000000001
         25254d61747269784d61726b6574206d617472697820636f6f7264696e61746520696e74656765722067656e6572616c0a",
    ),
    (
        Ask::Cell(1, 0x0102_0304_0506_0708),
        "00000010 02 0000000000000001 0102030405060708",
    ),
    (Ask::Row(u64::MAX), "00000008 03 ffffffffffffffff"),
    (Ask::Status, "00000000 04"),
    (Ask::Export, "00000000 05"),
    (Ask::Save, "00000000 06"),
    (Ask::Stop, "00000000 07"),
    (
        Ask::Cells(9, 1, &[(0, 1, 5), (2, 0, u64::MAX)]),
        "00000040 08 0000000000000009 0000000000000001
         0000000000000000 0000000000000001 0000000000000005
         0000000000000002 0000000000000000 ffffffffffffffff",
    ),
    (Ask::Stored, "00000000 09"),
    (
        Ask::Range([(1, 2), (3, 4), (5, 6)], 7),
        "00000038 0a 0000000000000001 0000000000000002 0000000000000003 0000000000000004
         0000000000000005 0000000000000006 0000000000000007",
    ),
    (Ask::Top(1, 258), "00000009 0b 01 0000000000000102"),
    (
        Ask::Groups(1, 8, 258, (3, 65_535)),
        "0000001a 12 01 08 0000000000000102 0000000000000003 000000000000ffff",
    ),
    (Ask::Stats, "00000000 0c"),
    (Ask::Fold, "00000000 0d"),
];

// Whether the frame of a request has these bytes.
fn is_spelled(rt: &impl Abort, alloc: Global, ask: Ask, digits: &str) -> bool {
    let expected = bytes_of(rt, alloc, digits);
    let frame = frame(rt, alloc, ask);
    let is_it = frame.as_slice() == expected.as_slice();
    drop(frame);
    drop(expected);
    is_it
}

#[test]
fn requests_are_spelled(rt: HostRuntime) {
    for (ask, digits) in SPELLED {
        let spelled = is_spelled(&rt, rt.alloc(), *ask, digits);
        assert!(rt; holds_at(&rt, digits, spelled));
    }
}
