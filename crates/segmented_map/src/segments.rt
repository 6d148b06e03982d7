//! Look-ups in a row of maps, whose entries count through.
ghost use Rattle.std.specs.Prelude.{◌≡◌, length, position, IfSome, Some, slice_get};
ghost use Rattle.std.specs.List.{IsDistinct};
ghost use Rattle.std.specs.Option.{option_map};
ghost use Rattle.std.specs.Map.{keys_of};
ghost use Rattle.std.specs.Map.Iter.{deref_pair};
ghost use Rattle.segmented_map.specs.Segments.{entries_in};

use indexmap::IndexMap;
use std::hash::{BuildHasher, Hash};

/// The index of a key among the entries of all segments, which are `len`, the key as it is stored, and its value. The
/// last segment is asked first.
pub(crate) fn find<'a, K: Eq + Hash, V, S: BuildHasher>(
    segments: &'a [IndexMap<K, V, S>],
    len: usize,
    key: &K,
) -> Option<(usize, &'a K, &'a V)>
    requires len { len ≡ length (entries_in segments.now) }
    requires unique { IsDistinct K.eq (keys_of (entries_in segments.now)) }
    ensures index { option_map (λ p. p.0) result ≡ position (K.eq key.now) (keys_of (entries_in segments.now)) }
    ensures entry { IfSome result (λ p. slice_get (entries_in segments.now) p.0 ≡ Some (p.1.now, p.2.now)) }
{
    let mut before = len;
    let mut i = segments.len();
    'segments: while i > 0 {
        i -= 1;
        let segment = &segments[i];
        before -= segment.len();
        if let Some((index, stored, value)) = segment.get_full(key) {
            return Some((before + index, stored, value));
        }
    }
    None
}

/// The entry at an index among those of all segments, which are `len`. The last segment is looked at first.
pub(crate) fn entry_at<'a, K: Eq + Hash, V, S: BuildHasher>(
    segments: &'a [IndexMap<K, V, S>],
    len: usize,
    index: usize,
) -> Option<(&'a K, &'a V)>
    requires { len ≡ length (entries_in segments.now) }
    ensures { option_map deref_pair result ≡ slice_get (entries_in segments.now) index }
{
    let mut before = len;
    let mut i = segments.len();
    'segments: while i > 0 {
        i -= 1;
        let segment = &segments[i];
        before -= segment.len();
        if index >= before {
            return segment.get_index(index - before);
        }
    }
    None
}
