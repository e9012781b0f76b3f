//! A place whose value is let go for another.

ghost use Rattle.std.specs.Prelude.{◌≡◌};

/// Puts a value in the place of another. The type is a parameter, since a value of such a type is let go by one call.
pub(crate) fn put<T: Drop>(place: &mut T, value: T)
    ensures { place.new ≡ value }
{
    *place = value;
}
