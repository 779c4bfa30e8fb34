//! Widens counts from 64 to 128 bits.

ghost use Rattle.std.specs.Prelude.{◌≡◌};

/// Widens the count of a branch to 128 bits. `None` stays `None`.
#[inline]
pub(crate) fn wide(taken: Option<u64>) -> Option<u128>
    ensures { result ≡ taken }
{
    match taken {
        Some(taken) => Some(u128::from(taken)),
        None => None,
    }
}
