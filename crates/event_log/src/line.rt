//! One line of the log.

ghost use Rattle.std.specs.Prelude.{◌≡◌, ◌++◌, List, ℕ, IfOk, codes};
ghost use Rattle.event_log.specs.Line.{head_text, pair_text};

use crate::value::push_value;
use std::alloc::{AllocError, Global};
use std::marker::Model;

/// A line that is being written, without its end.
#[derive(Drop)]
pub struct Line {
    alloc: Global,
    text: Vec<u8>,
}

impl Model for Line {
    ghost use Rattle.std.specs.Prelude.{List, ℕ};

    ghost Value = { List ℕ };

    ghost view = { λ line. line.text.items };
}

impl Line {
    /// A line of this event at this time.
    pub fn new(alloc: Global, time: &[u8], level: &str, event: &str) -> Result<Line, AllocError>
        ensures { IfOk result (λ line. line ≡ head_text time.now level.now event.now) }
    {
        let mut text = Vec::new(alloc);
        text.extend_from_slice(b"time=")?;
        push_value(alloc, &mut text, time)?;
        let line = Line { alloc, text };
        line.pair("level", level.as_bytes())?
            .pair("event", event.as_bytes())
    }

    /// The line with one more word.
    pub fn pair(self, key: &str, value: &[u8]) -> Result<Line, AllocError>
        ensures { IfOk result (λ line. line ≡ self ++ pair_text key.now value.now) }
    {
        let Line { alloc, mut text } = self;
        text.push(b' ')?;
        text.extend_from_slice(key.as_bytes())?;
        text.push(b'=')?;
        push_value(alloc, &mut text, value)?;
        Ok(Line { alloc, text })
    }

    /// The line's bytes, with its end.
    pub fn finish(self) -> Result<Vec<u8>, AllocError>
        ensures { IfOk result (λ bytes. bytes.items ≡ self ++ codes "\n") }
    {
        let Line { alloc: _, mut text } = self;
        text.push(b'\n')?;
        Ok(text)
    }
}
