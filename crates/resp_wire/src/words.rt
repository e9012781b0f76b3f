//! The words of a request.

ghost use Rattle.std.specs.Prelude.{◌≡◌, IfOk, IfErr, Some, is_some, IsTrue, MatchOption, false};
ghost use Rattle.resp_wire.specs.Data.{items_of, bulk};
ghost use Rattle.resp_wire.specs.Seen.{data_of};
ghost use Rattle.resp_wire.specs.Words.{words_of, bulks_of, is_bulk};

use crate::bytes::Bytes;
use crate::value::{Value, Values};
use std::alloc::Global;
use std::marker::Model;

/// Words, one after another.
#[derive(Drop)]
pub struct Words {
    words: Vec<Bytes>,
}

impl Model for Words {
    ghost use Rattle.std.specs.Prelude.{List, ℕ};

    ghost Value = { List (List ℕ) };

    ghost view = { λ a. a.words.items };
}

impl Words {
    pub fn new(words: Vec<Bytes>) -> Words
        ensures { result ≡ words.items }
    {
        Words { words }
    }

    pub fn as_slice(&self) -> &[Bytes]
        ensures { result.now ≡ self.now }
    {
        self.words.as_slice()
    }

    pub fn into_vec(self) -> Vec<Bytes>
        ensures { result.items ≡ self }
    {
        self.words
    }
}

impl Value {
    /// Whether it is an array of bulk strings alone.
    pub fn is_request(&self) -> bool
        ensures { result ≡ is_some (words_of (data_of self.now)) }
    {
        match self {
            Value::Array(items) => are_bulks(items),
            _ => false,
        }
    }

    /// Gives the words of a request up without a copy. The value comes back where it is no request, or where no
    /// memory is there for the list of its words.
    pub fn into_words(self, alloc: Global) -> Result<Words, Value>
        ensures ok { IfOk result (λ words. words_of (data_of self) ≡ Some words) }
        ensures err { IfErr result (λ value. value ≡ self) }
    {
        match self {
            Value::Array(items) => words_in(alloc, items),
            other => Err(other),
        }
    }

    fn is_bulk(&self) -> bool
        ensures { result ≡ is_bulk (data_of self.now) }
    {
        matches!(self, Value::Bulk(_))
    }

    fn into_bulk(self) -> Option<Bytes>
        ensures { MatchOption result (is_bulk (data_of self) ≡ false) (λ word. data_of self ≡ bulk word) }
    {
        match self {
            Value::Bulk(word) => Some(word),
            _ => None,
        }
    }
}

fn are_bulks(items: &Values) -> bool
    ensures { result ≡ is_some (bulks_of (items_of items.now)) }
{
    for item in items.as_slice() {
        if !item.is_bulk() {
            return false;
        }
    }
    true
}

/// The words of an array of bulk strings, or the array.
fn words_in(alloc: Global, items: Values) -> Result<Words, Value>
    ensures ok { IfOk result (λ words. bulks_of (items_of items) ≡ Some words) }
    ensures err { IfErr result (λ value. value ≡ Value.Array items) }
{
    if !are_bulks(&items) {
        return Err(Value::Array(items));
    }
    match bulks_in(alloc, items) {
        Ok(words) => Ok(words),
        Err(items) => Err(Value::Array(items)),
    }
}

/// The bulk strings among the items.
fn bulks_in(alloc: Global, items: Values) -> Result<Words, Values>
    requires { IsTrue (is_some (bulks_of (items_of items))) }
    ensures ok { IfOk result (λ words. bulks_of (items_of items) ≡ Some words) }
    ensures err { IfErr result (λ kept. kept ≡ items) }
{
    let Ok(mut words) = Vec::with_capacity(alloc, items.as_slice().len()) else {
        return Err(items);
    };
    for item in items.into_vec() {
        let Some(word) = item.into_bulk() else {
            continue;
        };
        words.push(word).unwrap();
    }
    Ok(Words { words })
}
