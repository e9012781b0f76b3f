//! A line: the words of a call, which are read one after another, and its answer.

use crate::notation::answer::Answer;
use crate::notation::fault::CallFault;
use crate::notation::shown::Shown;
use crate::notation::word::Word;
use crate::notation::words::words_in;
use resp_wire::Bytes;
use std::alloc::Global;
use std::str;

/// How many words name the object and its call.
const NAMES: usize = 2;

/// The words of a line: an object, its call, and what the call is given. And what is answered: words, or the fault for which
/// the call was not made.
#[derive(Drop)]
pub struct Line {
    pub alloc: Global,
    words: Vec<Bytes>,
    /// How many words were read.
    read: usize,
    pub answer: Answer,
    fault: Option<CallFault>,
}

impl Line {
    /// A line of no words.
    pub(crate) fn new(alloc: Global) -> Line {
        Line {
            alloc,
            words: Vec::new(alloc),
            read: NAMES,
            answer: Answer::new(alloc),
            fault: None,
        }
    }

    /// Begins anew, with the words of this text.
    pub(crate) fn begin(&mut self, text: &[u8]) -> Result<(), CallFault> {
        self.answer.clear();
        self.fault = None;
        self.read = NAMES;
        self.words = words_in(self.alloc, text)?;
        Ok(())
    }

    /// The name of the object. It is empty where there is none.
    pub fn object(&self) -> &str {
        name_in(self.words.first())
    }

    /// The name of the call. It is empty where there is none.
    pub fn call(&self) -> &str {
        name_in(self.words.get(1))
    }

    /// Whether all words were read.
    pub fn is_read(&self) -> bool {
        self.read >= self.words.len()
    }

    /// What the next words say, or None, which is a fault of the line.
    pub fn read<T: Word>(&mut self) -> Option<T> {
        T::next_in(self)
    }

    /// The next word.
    pub fn bytes(&mut self) -> Option<&[u8]> {
        Some(self.next()?.as_slice())
    }

    /// Takes the next word away.
    pub(crate) fn take(&mut self) -> Option<Bytes> {
        let empty = Vec::new(self.alloc);
        Some(std::mem::replace(self.next()?, Bytes::new(empty)))
    }

    /// The next word, which is read then.
    fn next(&mut self) -> Option<&mut Bytes> {
        let at = self.read;
        if at >= self.words.len() {
            self.refuse(CallFault::MissingWord);
            return None;
        }
        self.read = at + 1;
        self.words.get_mut(at)
    }

    /// The next word, which names something. It is empty where its bytes are no text.
    pub fn name(&mut self) -> Option<&str> {
        Some(str::from_utf8(self.bytes()?).unwrap_or(""))
    }

    /// All words that are left.
    pub fn rest(&mut self) -> &[Bytes] {
        let first = self.read.min(self.words.len());
        self.read = self.words.len();
        &self.words[first..]
    }

    /// The call is not made, for this fault, if it has no other.
    pub fn refuse(&mut self, fault: CallFault) {
        if self.fault.is_none() {
            self.fault = Some(fault);
        }
    }

    /// What was found, or a fault where nothing was.
    pub fn found<T: Drop>(&mut self, found: Option<T>, fault: CallFault) -> Option<T> {
        if found.is_none() {
            self.refuse(fault);
        }
        found
    }

    /// What was made, or the fault for which it was not.
    pub fn made<T: Drop, F: Into<CallFault> + Drop>(&mut self, made: Result<T, F>) -> Option<T> {
        match made {
            Ok(made) => Some(made),
            Err(fault) => {
                self.refuse(fault.into());
                None
            }
        }
    }

    /// Answers `ok`.
    pub fn done(&mut self) {
        self.answer.name("ok");
    }

    /// Answers by a name.
    pub fn say(&mut self, name: &str) {
        self.answer.name(name);
    }

    /// Answers by the words for something.
    pub fn show<T: Shown + Drop>(&mut self, shown: T) {
        shown.show(&mut self.answer);
    }

    /// Answers by the words for what was found, or refuses the call where nothing was.
    pub fn show_found<T: Shown + Drop>(&mut self, found: Option<T>, fault: CallFault) {
        if let Some(shown) = self.found(found, fault) {
            self.show(shown);
        }
    }

    /// Answers by the words for what was made, or refuses the call for the fault for which it was not.
    pub fn show_made<T: Shown + Drop, F: Into<CallFault> + Drop>(&mut self, made: Result<T, F>) {
        if let Some(shown) = self.made(made) {
            self.show(shown);
        }
    }

    /// Why the call was not made, if it was not.
    pub(crate) fn outcome(&self) -> Option<CallFault> {
        match self.fault {
            Some(CallFault::NoSuchCall) if self.words.len() < NAMES => Some(CallFault::MissingWord),
            None if self.answer.lacks_words() => Some(CallFault::NoMemory),
            None if !self.is_read() => Some(CallFault::FurtherWord),
            fault => fault,
        }
    }
}

/// The name that a word is.
fn name_in(word: Option<&Bytes>) -> &str {
    match word {
        Some(word) => str::from_utf8(word.as_slice()).unwrap_or(""),
        None => "",
    }
}
