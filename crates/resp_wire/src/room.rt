//! How a large buffer grows.

ghost use Rattle.std.specs.Prelude.{◌≡◌};

/// Bytes up to which a buffer doubles, as any list does.
const MOST_DOUBLED_BYTES: usize = 262_144;

/// Makes room for `count` bytes more in a large buffer that lacks it: a quarter more than it needs then, since one that has
/// doubled may leave half of itself unused. Where it is refused, the buffer grows by what it must.
pub(crate) fn make_room(bytes: &mut Vec<u8>, count: usize)
    ensures { bytes.new.items ≡ bytes.old.items }
{
    let needed = bytes.len().saturating_add(count);
    if needed > MOST_DOUBLED_BYTES && needed > bytes.capacity() {
        let _ = bytes.reserve_exact(count.saturating_add(needed / 4));
    }
}
