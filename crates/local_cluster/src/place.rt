//! A place that is filled anew.

ghost use Rattle.std.specs.Prelude.{◌≡◌};

/// Puts a value in the place of another.
pub(crate) fn put<T: Drop>(place: &mut T, value: T)
    ensures { place.new ≡ value }
{
    *place = value;
}
