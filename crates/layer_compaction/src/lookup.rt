//! Parts of look-ups in the sum of layers, which isn't built for them: what each layer answers is put together.
ghost use Rattle.std.specs.Prelude.{◌≡◌, ◌+◌, ◌<◌, ◌^◌, unwrap_or};
ghost use Rattle.hyper_matrix.specs.Counts.{plus};

/// The count at a place of a sum, from the counts there. None stands for no entry.
pub fn plus(x: Option<u64>, y: Option<u64>) -> Option<u64>
    requires { unwrap_or x 0 + unwrap_or y 0 < 2 ^ 64 }
    ensures { result ≡ plus x y }
{
    match (x, y) {
        (Some(x), Some(y)) => Some(x + y),
        (x, None) => x,
        (None, y) => y,
    }
}
