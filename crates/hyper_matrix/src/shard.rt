//! In which shard a row lies.
ghost use Rattle.std.specs.Prelude.{◌≡◌, ◌<◌, ◌%◌};

/// The shard of `k` in which a row lies: what the row's number leaves when divided by `k`.
///
/// Where `k` is a power of two that is the number's low bits, and nothing is divided: a division of 64 bits takes some
/// tens of cycles, and each row of a matrix is asked for its shard.
pub fn shard_of(row: u64, k: u64) -> u64
    requires { 0 < k }
    ensures { result ≡ row % k }
{
    let bits = k.trailing_zeros();
    if bits < 64 && k == 1 << bits {
        row & (k - 1)
    } else {
        row % k
    }
}
