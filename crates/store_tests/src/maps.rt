//! A map that grows past several segments: each entry is found at its index, and no other.
use segmented_map::SegmentedMap;
use std::collections::hash_map::RandomState;
use std::process::Abort;
use test_support::{holds_at, same};

// They lie in three segments: of 73,728 indices, of three times as many, and of nine times.
const ENTRIES: u64 = 300_000;

type Map = SegmentedMap<u64, u64, RandomState>;

// The key of an entry: none comes twice, and they are in no order.
fn key_of(entry: u64) -> u64 {
    entry.wrapping_mul(0x9E37_79B9_7F4A_7C15)
}

fn add(rt: &impl Abort, map: &mut Map, entry: u64) {
    map.reserve_one().expect(rt, "memory");
    let key = key_of(entry);
    assert!(rt; !map.contains_key(&key));
    map.push(key, entry);
}

// Whether an entry lies at its index, under its key alone.
fn is_found(map: &Map, entry: u64) -> bool {
    let key = key_of(entry);
    let index = entry as usize;
    map.get_full(&key) == Some((index, &key, &entry))
        && map.get_index(index) == Some((&key, &entry))
}

#[test]
fn a_map_grows_past_several_segments_and_is_cleared(rt: HostRuntime) {
    let state = RandomState::new(&rt).expect(&rt, "a seed");
    let mut map: Map = SegmentedMap::with_hasher(rt.alloc(), state);
    for entry in 0..ENTRIES {
        add(&rt, &mut map, entry);
    }
    assert!(rt; same(&rt, &map.len(), &(ENTRIES as usize)));
    for entry in 0..ENTRIES {
        let later = entry + ENTRIES;
        let is_alone = !map.contains_key(&key_of(later)) && map.get_index(later as usize).is_none();
        assert!(rt; holds_at(&rt, &entry, is_found(&map, entry) && is_alone));
    }
    map.clear();
    assert!(rt; map.is_empty() && !map.contains_key(&key_of(0)) && map.get_index(0).is_none());
    add(&rt, &mut map, 0);
    assert!(rt; is_found(&map, 0) && same(&rt, &map.len(), &1));
    drop(map);
}
