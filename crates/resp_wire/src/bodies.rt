//! How the bodies of bulk strings are made.

ghost use Rattle.std.specs.Prelude.{◌≡◌, ◌≤◌, length, take, IfOk};
ghost use Rattle.resp_wire.specs.Bodies.{AreEndOf};

use crate::bytes::Bytes;
use crate::fault::NoMemory;
use crate::part::Part;
use std::alloc::Global;

/// The shortest body that shares the buffer which it came in. A shorter one is copied, so that it keeps no buffer.
pub(crate) const LEAST_SHARED_BYTES: usize = 16_384;

/// How the bodies of a value are made.
#[derive(Drop)]
pub(crate) enum Bodies<'a> {
    /// Each is copied that has at most this number of bytes. A longer one is refused, as where memory runs out.
    Copied(usize),
    /// A large one is a part of these bytes, which end with those that the value is read from.
    Shared(&'a Part),
}

impl<'a> Bodies<'a> {
    /// The first `count` bytes.
    pub(crate) fn body(&self, alloc: Global, bytes: &[u8], count: usize) -> Result<Bytes, NoMemory>
        requires end { AreEndOf bytes.now self.now }
        requires within { count ≤ length bytes.now }
        ensures { IfOk result (λ body. body ≡ take count bytes.now) }
    {
        match self {
            Bodies::Copied(most) => {
                if count > *most {
                    return Err(NoMemory);
                }
                Bytes::from_slice(alloc, &bytes[..count])
            }
            Bodies::Shared(whole) => {
                if count < LEAST_SHARED_BYTES {
                    return Bytes::from_slice(alloc, &bytes[..count]);
                }
                let start = whole.as_slice().len() - bytes.len();
                Ok(Bytes::from_part(whole.part(start, count)?))
            }
        }
    }
}
