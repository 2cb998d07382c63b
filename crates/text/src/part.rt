//! The front of a slice.
ghost use Rattle.std.specs.Prelude.{◌≡◌, min, length};
ghost use Rattle.text.specs.Part.{IsPrefixLen};

// The count, or the slice's length where that is less, so that `&items[..n]` leaves nothing to show.
pub fn within<T>(count: usize, items: &[T]) -> usize
    ensures prefix_len { IsPrefixLen result items.now }
    ensures value { result ≡ min count (length items.now) }
{
    count.min(items.len())
}
