//! Checksums: the published values, and bytes that are added in parts.

use crc32c::{Crc, crc32c};
use test_support::same_at;

/// The nine digits; and of RFC 3720, B.4, 32 bytes 00, 32 bytes ff, those that count up, and an iSCSI read command.
static PUBLISHED: &[(&[u8], u32)] = &[
    (b"", 0),
    (b"123456789", 0xe306_9283),
    (&[0; 32], 0x8a91_36aa),
    (&[0xff; 32], 0x62a8_ab43),
    (
        &[
            0, 1, 2, 3, 4, 5, 6, 7, 8, 9, 10, 11, 12, 13, 14, 15, 16, 17, 18, 19, 20, 21, 22, 23,
            24, 25, 26, 27, 28, 29, 30, 31,
        ],
        0x46dd_794e,
    ),
    (
        &[
            0x01, 0xc0, 0, 0, 0, 0, 0, 0, 0, 0, 0, 0, 0, 0, 0, 0, 0x14, 0, 0, 0, 0, 0, 0x04, 0, 0,
            0, 0, 0x14, 0, 0, 0, 0x18, 0x28, 0, 0, 0, 0, 0, 0, 0, 0x02, 0, 0, 0, 0, 0, 0, 0,
        ],
        0xd996_3a56,
    ),
];

#[test]
fn published_values(rt: HostRuntime) {
    for (bytes, wanted) in PUBLISHED {
        assert!(rt; same_at(&rt, bytes, &crc32c(bytes), wanted));
    }
}

// In two parts, with the checksum asked for after the last, and again after no byte.
#[test]
fn parts_are_added(rt: HostRuntime) {
    let mut crc = Crc::new();
    crc.add(b"12345678");
    crc.add(b"9");
    let digits = crc.value();
    crc.add(&[]);
    assert!(rt; same_at(&rt, &"digits", &[digits, crc.value()], &[0xe306_9283; 2]));
}
