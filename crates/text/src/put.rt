//! Putting bytes into a buffer.

ghost use Rattle.text.specs.Put.{PutsIf};

/// Puts the bytes at a place of the buffer and answers where they end; where they find no room, the
/// buffer and the place stay.
// The room is compared by hand: behind a `get_mut(at..)` the check knows how long the buffer is, and not its bytes.
pub fn put(out: &mut [u8], at: usize, bytes: &[u8]) -> usize
    ensures { PutsIf out.old at out.new result bytes.now }
{
    if at > out.len() || bytes.len() > out.len() - at {
        return at;
    }
    let end = at + bytes.len();
    out[at..end].copy_from_slice(bytes);
    end
}
