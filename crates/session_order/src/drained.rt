//! What a drain gave.

ghost use Rattle.std.specs.Prelude.{◌≡◌, ◌<◌, ◌^◌, length};
ghost use Rattle.session_order.specs.Replies.{bytes_behind};

use resp_wire::Bytes;

/// What a drain gave.
#[derive(Drop)]
pub struct Drained {
    /// How many bytes, with those of the tail.
    pub count: usize,
    /// The last of them, where they stand behind the output and are not in it.
    pub tail: Option<Bytes>,
}

/// How many bytes stand behind the output.
pub(crate) fn tail_len(tail: &Option<Bytes>) -> usize
    ensures len { result ≡ length (bytes_behind tail.now) }
    ensures short { result < 2 ^ 63 }
{
    match tail {
        Some(tail) => tail.as_slice().len(),
        None => 0,
    }
}
