//! Values that take the place of others.
ghost use Rattle.std.specs.Prelude.{◌≡◌};

/// Puts a value in the place of another one, which goes.
pub fn put<T: Drop>(place: &mut T, value: T)
    ensures { place.new ≡ value }
{
    drop(std::mem::replace(place, value));
}
