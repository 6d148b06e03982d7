//! Head pages and links: their bytes, which were worked out by hand, and the faults of heads that were changed.

use batch_store::Entry;
use log_blocks::LogKind;
use log_head::{Link, LogHead, decode_head, encode_head, link_of};
use log_page::PAGE;
use snap_file::{Identity, NO_WINDOW};
use test_batches::{head, head_after, put_numbers, small_setup};
use test_support::{holds_at, same, same_at};

/// The batch number 1 of client 7, one cell with a count of 5, and that of client 8, one with a count of 3.
const SEVEN: Entry = Entry {
    client: 7,
    number: 1,
    cells: 1,
    total: 5,
};

const EIGHT: Entry = Entry {
    client: 8,
    number: 1,
    cells: 1,
    total: 3,
};

#[test]
fn entries_are_linked(rt: HostRuntime) {
    let mut link = Link::new();
    assert!(rt; same(&rt, &link.value(), &0));
    link.add(&SEVEN);
    assert!(rt; same(&rt, &link.value(), &0xde34_5a72));
    assert!(rt; same(&rt, &link_of(&[SEVEN, EIGHT]), &0xec64_96c9));
}

// No known book and no window.
fn unknown() -> Identity {
    Identity {
        book_high: 0,
        book_low: 0,
        window: NO_WINDOW,
    }
}

// The page of a head, over other bytes.
fn spelled(head: &LogHead) -> [u8; PAGE] {
    let mut page = [0xff; PAGE];
    encode_head(&mut page, head);
    page
}

// A log with nothing before it, and one after the batch of client 7.
#[test]
fn heads_are_written_and_read(rt: HostRuntime) {
    let after = head_after(
        [
            0x0000_0000_0001_0000,
            0x0000_0000_0005_de34,
            0x5a72_0000_0000_0000,
        ],
        0x7ef0_1ca8,
    );
    for (page, first, total, link) in [(head(), 0, 0, 0), (after, 1, 5, 0xde34_5a72)] {
        let setup = small_setup().expect(&rt, "a setup");
        let written = spelled(&LogHead {
            setup,
            first,
            total,
            link,
            identity: unknown(),
        });
        assert!(rt; holds_at(&rt, &first, written == page));
        let read = decode_head(&page).expect(&rt, "a head");
        assert!(rt;
            same(
                &rt,
                &(read.first, read.total, read.link),
                &(first, total, link)
            )
        );
        assert!(rt; holds_at(&rt, &first, spelled(&read) == page));
    }
}

// The head of the book 00112233445566778899aabbccddeeff with nothing before the log, and one of version 1, which doesn't
// say whose it is.
#[test]
fn heads_say_whose_they_are(rt: HostRuntime) {
    let named = Identity {
        book_high: 0x0011_2233_4455_6677,
        book_low: 0x8899_aabb_ccdd_eeff,
        window: NO_WINDOW,
    };
    let mut page = head();
    put_numbers(&mut page, 82, &[named.book_high, named.book_low]);
    put_numbers(&mut page, PAGE - 8, &[0x9ec0_e3d8]);
    let read = decode_head(&page).expect(&rt, "a head");
    assert!(rt; same(&rt, &read.identity, &named));
    assert!(rt; holds_at(&rt, &"written", spelled(&read) == page));
    let mut old = head();
    put_numbers(&mut old, 8, &[0x0000_0001_0000_0000]);
    put_numbers(&mut old, 98, &[0]);
    put_numbers(&mut old, PAGE - 8, &[0xba8a_a704]);
    let before = decode_head(&old).expect(&rt, "an old head");
    assert!(rt; same(&rt, &before.identity, &unknown()));
    assert!(rt; holds_at(&rt, &"as version 2", spelled(&before) == head()));
}

// A version, as the upper half of eight bytes; the most batches; and the fault. The checksum is wrong, so it is the fault
// where the setup may allow so many batches.
const ALLOWED: [(u64, u64, LogKind); 4] = [
    (1 << 32, 1_000_000, LogKind::HeadCheck),
    (1 << 32, 1_000_001, LogKind::BadHead),
    (2 << 32, 1 << 30, LogKind::HeadCheck),
    (2 << 32, (1 << 30) + 1, LogKind::BadHead),
];

#[test]
fn heads_allow_batches_by_their_version(rt: HostRuntime) {
    for (version, most, why) in ALLOWED {
        let mut page = head();
        put_numbers(&mut page, 8, &[version]);
        put_numbers(&mut page, 54, &[most]);
        assert!(rt; same_at(&rt, &(version, most), &decode_head(&page).err(), &Some(why)));
    }
}

// A byte of a head, what it becomes, and the fault: of the mark, the version, the number of shards, and the checksum.
const FAULTS: [(usize, u8, LogKind); 4] = [
    (7, 0, LogKind::BadMark),
    (11, 3, LogKind::BadVersion),
    (45, 0, LogKind::BadHead),
    (4095, 1, LogKind::HeadCheck),
];

#[test]
fn changed_heads_are_refused(rt: HostRuntime) {
    for (at, byte, why) in FAULTS {
        let mut page = head();
        if at < PAGE {
            page[at] = byte;
        }
        assert!(rt; same_at(&rt, &at, &decode_head(&page).err(), &Some(why)));
    }
}
