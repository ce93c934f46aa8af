//! The stretches of a slice.

ghost use Rattle.std.specs.Prelude.{◌≡◌, ◌≢◌, ℕ, ◌+◌, ◌*◌, ◌≤◌, length};
ghost use Rattle.row_arena.specs.Stretch.{stretch};

/// Returns the `k`-th stretch of `size` items.
pub fn stretch<T>(items: &[T], k: usize, size: usize) -> &[T]
    requires { k * size + size ≤ length items.now }
    ensures value { result.now ≡ stretch k size items.now }
    ensures len { length result.now ≡ size }
{
    &items[k * size..k * size + size]
}

/// Writes `from` over the `k`-th stretch of its length.
pub fn put_at<T: Copy>(into: &mut [T], k: usize, from: &[T])
    requires { k * length from.now + length from.now ≤ length into.old }
    ensures there { stretch k (length from.now) into.new ≡ from.now }
    ensures others { (j : ℕ) → j ≢ k
        → stretch j (length from.now) into.new ≡ stretch j (length from.now) into.old }
{
    let at = k * from.len();
    into[at..at + from.len()].copy_from_slice(from);
}
