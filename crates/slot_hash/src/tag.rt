//! Hash tags: a key's part in braces decides its slot.

ghost use Rattle.std.specs.Prelude.{◌≡◌, ◌==◌, position};
ghost use Rattle.slot_hash.specs.Slot.{tag_of};

use memchr::memchr;

/// The part of a key that is hashed: what stands between its first `{` and the first `}` after it, and the whole key
/// where one of them is missing or nothing stands between them. Keys of one tag have one slot.
pub fn tag_of(key: &[u8]) -> &[u8]
    ensures { result.now ≡ tag_of key.now }
{
    let Some(open) = first_place(key, b'{') else {
        return key;
    };
    let rest = &key[open + 1..];
    match first_place(rest, b'}') {
        None | Some(0) => key,
        Some(length) => &rest[..length],
    }
}

/// Where the byte stands first.
fn first_place(bytes: &[u8], byte: u8) -> Option<usize>
    ensures { result ≡ position (λ other. other == byte) bytes.now }
{
    memchr(byte, bytes)
}
