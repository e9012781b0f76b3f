//! What a call answers, as one line of words.

use std::alloc::Global;
use std::fmt::{Debug, Write};

/// The words of an answer.
#[derive(Drop)]
pub struct Answer {
    alloc: Global,
    text: String,
    /// Whether memory was wanting for some of it.
    cut: bool,
    /// Whether memory was wanting for what some of it is read from.
    lacks_words: bool,
}

impl Answer {
    pub(crate) fn new(alloc: Global) -> Answer {
        Answer {
            alloc,
            text: String::new(alloc),
            cut: false,
            lacks_words: false,
        }
    }

    pub(crate) fn allocator(&self) -> Global {
        self.alloc
    }

    /// The words of the line so far, or None where some of them found no memory.
    pub(crate) fn text(&self) -> Option<&str> {
        if self.cut {
            return None;
        }
        Some(self.text.as_str())
    }

    /// Begins a new line.
    pub(crate) fn clear(&mut self) {
        self.text.clear();
        self.cut = false;
        self.lacks_words = false;
    }

    /// Whether memory was wanting for what some of the line is read from.
    pub(crate) fn lacks_words(&self) -> bool {
        self.lacks_words
    }

    /// Notes that memory was wanting for what the next words are read from.
    pub(crate) fn lack_words(&mut self) {
        self.lacks_words = true;
    }

    /// A word that needs no quotes.
    pub fn name(&mut self, name: &str) {
        self.space();
        self.put(name);
    }

    /// A number, or a fault or the like by its name.
    pub fn debug<T: Debug>(&mut self, named: &T) {
        self.space();
        if write!(self.text, "{named:?}").is_err() {
            self.cut = true;
        }
    }

    /// Any bytes as a word, in quotes where it needs them.
    pub fn bytes(&mut self, bytes: &[u8]) {
        self.space();
        if is_plain(bytes) {
            self.put_all(bytes);
            return;
        }
        self.put("\"");
        self.put_all(bytes);
        self.put("\"");
    }

    fn space(&mut self) {
        if !self.text.is_empty() {
            self.put(" ");
        }
    }

    fn put(&mut self, text: &str) {
        if self.text.push_str(text).is_err() {
            self.cut = true;
        }
    }

    fn put_all(&mut self, bytes: &[u8]) {
        for byte in bytes {
            self.put_byte(*byte);
        }
    }

    fn put_byte(&mut self, byte: u8) {
        match byte {
            b'\r' => self.put("\\r"),
            b'\n' => self.put("\\n"),
            b'"' => self.put("\\\""),
            b'\\' => self.put("\\\\"),
            b' '..=b'~' => self.cut |= self.text.push(char::from(byte)).is_err(),
            _ => self.cut |= write!(self.text, "\\x{byte:02x}").is_err(),
        }
    }
}

/// Whether the bytes are a word without quotes.
fn is_plain(bytes: &[u8]) -> bool {
    for byte in bytes {
        if !matches!(*byte, b'!' | b'#'..=b'[' | b']'..=b'~') {
            return false;
        }
    }
    !bytes.is_empty()
}
