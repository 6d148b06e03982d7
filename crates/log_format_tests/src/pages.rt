//! Pages: the bytes of one that is sealed, and the kind of one whose bytes are lost or changed.

use log_page::{PAGE, PageKind, page_kind, seal_page};
use test_batches::b2;
use test_support::{holds_at, same_at};

// The page says where it belongs: the batch number 1 of all, in the only page of its block.
#[test]
fn a_page_is_sealed(rt: HostRuntime) {
    let known = b2();
    let mut page = [0xff; PAGE];
    page[24..].copy_from_slice(&known[24..]);
    seal_page(&mut page, 1, 0, 1);
    assert!(rt; holds_at(&rt, &"the page of B2", page == known));
}

// A byte of the page, what it becomes, and the kind of the page then.
const KINDS: [(usize, u8, PageKind); 3] = [
    (79, 3, PageKind::Whole),
    (79, 0, PageKind::Short),
    (79, 2, PageKind::Spoilt),
];

#[test]
fn pages_are_of_four_kinds(rt: HostRuntime) {
    for (at, byte, kind) in KINDS {
        let mut page = b2();
        if at < PAGE {
            page[at] = byte;
        }
        assert!(rt; same_at(&rt, &byte, &page_kind(&page), &kind));
    }
    assert!(rt; same_at(&rt, &"blank", &page_kind(&[0; PAGE]), &PageKind::Empty));
}
