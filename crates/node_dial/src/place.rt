//! A place that is filled anew.

ghost use Rattle.std.specs.Prelude.{◌≡◌};

/// Puts a value into the place, and lets go what was there.
pub(crate) fn put<T: Drop>(place: &mut T, value: T)
    ensures { place.new ≡ value }
{
    *place = value;
}
