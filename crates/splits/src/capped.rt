//! Sums and products of numbers of up to 128 bits. None stands for a number that has more.
ghost use Rattle.std.specs.Prelude.{ℕ, ◌+◌, ◌*◌};
ghost use Rattle.splits.specs.Capped.{Tells};

/// The sum, or None where it is 2^128 or more.
pub fn plus(a: Option<u128>, b: Option<u128>) -> Option<u128>
    ensures { (m n : ℕ) → Tells a m → Tells b n → Tells result (m + n) }
{
    match (a, b) {
        (Some(a), Some(b)) => a.checked_add(b),
        (Some(_), None) | (None, Some(_)) | (None, None) => None,
    }
}

/// The product, or None where it is 2^128 or more. Any number times 0 is 0.
pub fn times(a: Option<u128>, b: Option<u128>) -> Option<u128>
    ensures { (m n : ℕ) → Tells a m → Tells b n → Tells result (m * n) }
{
    match (a, b) {
        (Some(a), Some(b)) => a.checked_mul(b),
        (Some(0), None) | (None, Some(0)) => Some(0),
        (Some(_), None) | (None, Some(_)) | (None, None) => None,
    }
}
