//! The first of a list, and the others.

ghost use Rattle.std.specs.Prelude.{◌≡◌, drop, option_copied, slice_get};

/// The first of these, if there is one, and the others.
pub(crate) fn first_and_others<T>(all: &[T]) -> (Option<&T>, &[T])
    ensures first { option_copied result.0 ≡ slice_get all.now 0 }
    ensures others { result.1.now ≡ drop 1 all.now }
{
    match all.split_first() {
        Some((first, others)) => (Some(first), others),
        None => (None, all),
    }
}
