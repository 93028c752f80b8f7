//! Buffers of a caller.

ghost use Rattle.std.specs.Prelude.{◌≡◌};
ghost use Rattle.answers.specs.Filled.{filled};

/// Writes the items to the beginning of the buffer, where it has room for all of them. Else it is left as it was.
pub fn fill<T: Copy>(buffer: &mut [T], items: &[T])
    ensures { buffer.new ≡ filled items.now buffer.old }
{
    if items.len() <= buffer.len() {
        buffer[..items.len()].copy_from_slice(items);
    }
}
