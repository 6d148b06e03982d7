//! What look-ups need: the order of places, and a bisection.
ghost use Rattle.std.specs.Prelude.{◌≡◌, ℕ, ◌-◌, ◌<◌, ◌≤◌, true, false};
ghost use Rattle.hyper_matrix.specs.Search.{is_before};

/// Whether a place comes before another, by row and then column.
pub fn is_before(p: (u64, u64), q: (u64, u64)) -> bool
    ensures { result ≡ is_before p q }
{
    p.0 < q.0 || p.0 == q.0 && p.1 < q.1
}

/// Where a test of the numbers below `len` turns, by bisection: it holds of the number before, and not of this one. For
/// a test that holds of the first numbers alone that is how many they are.
pub fn partition_point<F: Fn(usize) -> bool>(len: usize, test: F) -> usize
    requires { (k : ℕ) → k < len → F.pre test k }
    ensures within { result ≤ len }
    ensures before { 0 < result → F.post test (result - 1) true }
    ensures behind { result < len → F.post test result false }
{
    let mut low = 0;
    let mut high = len;
    'halve: while low < high {
        let middle = low + (high - low) / 2;
        if test(middle) {
            low = middle + 1;
        } else {
            high = middle;
        }
    }
    low
}
