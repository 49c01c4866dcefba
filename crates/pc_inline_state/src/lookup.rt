//! Look-ups by index.

ghost use Rattle.std.specs.Prelude.{◌≡◌, slice_get};

/// The item at an index.
pub fn at<T: Copy>(items: &[T], index: u32) -> Option<T>
    ensures { result ≡ slice_get items.now index }
{
    items.get(index as usize).copied()
}
