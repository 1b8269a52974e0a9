//! Places of a ring, which wrap at its length.

ghost use Rattle.std.specs.Prelude.{◌≡◌, ◌<◌};
ghost use Rattle.ring_model.specs.shared.Places.{between_places, place_next};

/// Returns the place after this one.
#[inline]
pub fn place_after(place: u16, size: u16) -> u16
    requires { place < size }
    ensures value { result ≡ place_next size place }
    ensures below { result < size }
{
    if place + 1 == size { 0 } else { place + 1 }
}

/// Returns the number of places from `from` up to, but not including, `to`.
#[inline]
pub fn places_between(from: u16, to: u16, size: u16) -> u16
    requires from { from < size }
    requires to { to < size }
    ensures value { result ≡ between_places size from to }
    ensures below { result < size }
{
    if from <= to {
        to - from
    } else {
        size - from + to
    }
}
