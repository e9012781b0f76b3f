//! The words of a line.

use crate::notation::fault::CallFault;
use resp_wire::Bytes;
use std::alloc::Global;

/// Where in a line a byte stands.
#[derive(Clone, Copy)]
enum Place {
    Between,
    /// In a word without quotes.
    Plain,
    /// In a word in quotes.
    Quoted,
    /// Behind a backslash.
    Escaped,
    /// At the first of two hexadecimal digits.
    FirstDigit,
    /// At the second, behind this one.
    SecondDigit(u8),
}

/// The words so far, or the first fault that was found.
#[derive(Drop)]
struct Lexer {
    alloc: Global,
    words: Vec<Bytes>,
    word: Vec<u8>,
    place: Place,
    fault: Option<CallFault>,
}

/// The words of a line.
pub fn words_in(alloc: Global, line: &[u8]) -> Result<Vec<Bytes>, CallFault> {
    let mut lexer = Lexer {
        alloc,
        words: Vec::new(alloc),
        word: Vec::new(alloc),
        place: Place::Between,
        fault: None,
    };
    for byte in line {
        lexer.take(*byte);
    }
    lexer.finish()
}

impl Lexer {
    fn take(&mut self, byte: u8) {
        match (self.place, byte) {
            (Place::Between, b' ') => {}
            (Place::Between, b'"') => self.place = Place::Quoted,
            (Place::Between, _) => {
                self.place = Place::Plain;
                self.push(byte);
            }
            (Place::Plain, b' ') | (Place::Quoted, b'"') => self.end(),
            (Place::Quoted, b'\\') => self.place = Place::Escaped,
            (Place::Plain | Place::Quoted, _) => self.push(byte),
            (Place::Escaped, b'x') => self.place = Place::FirstDigit,
            (Place::Escaped, _) => self.push_quoted(escaped(byte)),
            (Place::FirstDigit, _) => match digit(byte) {
                Some(high) => self.place = Place::SecondDigit(high),
                None => self.push_quoted(None),
            },
            (Place::SecondDigit(high), _) => {
                self.push_quoted(digit(byte).map(|low| (high << 4) | low));
            }
        }
    }

    /// Goes on in a word in quotes, with this byte, or none where the backslash and what stands behind it say none.
    fn push_quoted(&mut self, byte: Option<u8>) {
        self.place = Place::Quoted;
        match byte {
            Some(byte) => self.push(byte),
            None => self.refuse(CallFault::BadQuote),
        }
    }

    fn push(&mut self, byte: u8) {
        if self.word.push(byte).is_err() {
            self.refuse(CallFault::NoMemory);
        }
    }

    fn refuse(&mut self, fault: CallFault) {
        if self.fault.is_none() {
            self.fault = Some(fault);
        }
    }

    /// Ends the word.
    fn end(&mut self) {
        self.place = Place::Between;
        match Bytes::from_slice(self.alloc, &self.word) {
            Ok(word) => self.keep(word),
            Err(_) => self.refuse(CallFault::NoMemory),
        }
        self.word.clear();
    }

    fn keep(&mut self, word: Bytes) {
        if self.words.push(word).is_err() {
            self.refuse(CallFault::NoMemory);
        }
    }

    fn finish(mut self) -> Result<Vec<Bytes>, CallFault> {
        match self.place {
            Place::Between => {}
            Place::Plain => self.end(),
            _ => self.refuse(CallFault::BadQuote),
        }
        match self.fault {
            Some(fault) => Err(fault),
            None => Ok(self.words),
        }
    }
}

/// The byte that a letter behind a backslash says.
fn escaped(letter: u8) -> Option<u8> {
    match letter {
        b'r' => Some(b'\r'),
        b'n' => Some(b'\n'),
        b'"' | b'\\' => Some(letter),
        _ => None,
    }
}

/// What a hexadecimal digit says.
fn digit(byte: u8) -> Option<u8> {
    match byte {
        b'0'..=b'9' => Some(byte - b'0'),
        b'a'..=b'f' => Some(byte - b'a' + 10),
        _ => None,
    }
}
