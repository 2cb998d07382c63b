//! Rooms for what is lent.
ghost use Rattle.std.specs.Prelude.{◌≡◌, length, All};

// An array of copies of one entry. Made here, since the check counts the elements of one that is made where it is used.
pub fn room_of<T: Copy, const N: usize>(entry: T) -> [T; N]
    ensures long { N ≡ length result }
    ensures filled { All (λ x. x ≡ entry) result }
{
    [entry; N]
}
