//! Bytes dropped from the front of a vector, and memory given back.

ghost use Rattle.std.specs.Prelude.{◌≡◌, ◌≤◌, drop, length};

/// Drops the first bytes. The others move to the front, and the buffer stays as large as it is.
pub fn drop_front(bytes: &mut Vec<u8>, count: usize)
    requires { count ≤ length bytes.old.items }
    ensures { bytes.new.items ≡ drop count bytes.old.items }
{
    let len = bytes.len();
    bytes.copy_within(count..len, 0);
    bytes.truncate(len - count);
}

/// Frees the buffer where it is empty and larger than this.
pub fn free_large(bytes: &mut Vec<u8>, kept: usize)
    ensures { bytes.new.items ≡ bytes.old.items }
{
    if bytes.is_empty() && bytes.capacity() > kept {
        bytes.shrink_to_fit();
    }
}
