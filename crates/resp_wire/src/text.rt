//! A text of one line.

ghost use Rattle.std.specs.Prelude.{◌≡◌, IsTrue, IsSome, IfSome, IfOk, ◌↔◌};
ghost use Rattle.resp_wire.specs.Text.{is_one_line};

use crate::bytes::Bytes;
use crate::fault::NoMemory;
use std::alloc::Global;
use std::marker::Model;

/// A text with no CR or LF in it.
pub struct Line {
    bytes: Bytes,
}

// By hand, so that the crates above prove one call.
impl Drop for Line {
    fn drop(self) {
        let Line { bytes } = self;
        drop(bytes);
    }
}

impl Model for Line {
    ghost use Rattle.std.specs.Prelude.{List, ℕ};

    ghost Value = { List ℕ };

    ghost view = { λ a. a.bytes };

    ghost use Rattle.std.specs.Prelude.{IsTrue};
    ghost use Rattle.resp_wire.specs.Text.{is_one_line};

    ghost invariant = { λ a. IsTrue (is_one_line a.bytes) };
}

impl Line {
    /// A text known to be one line, in memory of its own.
    pub fn from_text(alloc: Global, text: &[u8]) -> Result<Line, NoMemory>
        requires { IsTrue (is_one_line text.now) }
        ensures { IfOk result (λ line. line ≡ text.now) }
    {
        let bytes = Bytes::from_slice(alloc, text)?;
        Ok(Line { bytes })
    }

    pub fn new(bytes: Vec<u8>) -> Option<Line>
        ensures one_line { IsSome result ↔ IsTrue (is_one_line bytes.items) }
        ensures value { IfSome result (λ line. line ≡ bytes.items) }
    {
        if is_one_line(&bytes) {
            Some(Line {
                bytes: Bytes::new(bytes),
            })
        } else {
            None
        }
    }

    /// The same text.
    pub fn copy(&self, alloc: Global) -> Result<Line, NoMemory>
        ensures { IfOk result (λ copy. copy ≡ self.now) }
    {
        let bytes = self.bytes.copy(alloc)?;
        Ok(Line { bytes })
    }

    pub fn bytes(&self) -> &[u8]
        ensures value { result.now ≡ self.now }
        ensures one_line { IsTrue (is_one_line self.now) }
    {
        self.bytes.as_slice()
    }
}

/// Neither CR nor LF stands in the bytes.
pub fn is_one_line(bytes: &[u8]) -> bool
    ensures { result ≡ is_one_line bytes.now }
{
    bytes.iter().all(|byte| *byte != b'\r' && *byte != b'\n')
}
