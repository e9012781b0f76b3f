//! Bytes and values: a reader, and a value that is held.

use crate::held::{Held, put};
use crate::notation::{CallFault, Line, Object};
use crate::round;
use resp_wire::{Bytes, Limits, Reader, Value, write_value};
use std::alloc::Global;

impl Object for Reader {
    fn call(&mut self, line: &mut Line) {
        match line.call() {
            "new" => renew(self, line),
            "feed" => {
                if let Some(bytes) = line.read::<Bytes>() {
                    line.show(self.feed(bytes.as_slice()));
                }
            }
            "next" => line.show(self.next()),
            "round" => round::call(line),
            _ => line.refuse(CallFault::NoSuchCall),
        }
    }
}

/// A reader within full limits, or within those of the words.
fn renew(reader: &mut Reader, line: &mut Line) {
    if line.is_read() {
        return put(reader, Reader::new(line.alloc, Limits::full()), line);
    }
    let Some(((bulk, items), (depth, size))) = line.read() else {
        return;
    };
    match Limits::new(bulk, items, depth, size) {
        Some(limits) => put(reader, Reader::new(line.alloc, limits), line),
        None => line.say("none"),
    }
}

/// A call of the value that is held, or of another: `read BYTES` holds the value that they spell.
pub fn call_of_value(held: &mut Held<Value>, line: &mut Line) {
    match line.call() {
        "read" => {
            if let Some(value) = line.read() {
                held.put(value);
                line.done();
            }
        }
        "words" => show_words(held, line),
        _ => held.call(line),
    }
}

/// Gives the words of the value up, or holds it again.
fn show_words(held: &mut Held<Value>, line: &mut Line) {
    let Some(value) = held.value.take() else {
        return line.refuse(CallFault::NotMade);
    };
    match value.into_words(line.alloc) {
        Ok(words) => {
            line.say("words");
            line.answer.words(words.as_slice());
        }
        Err(value) => {
            line.say("back");
            line.show(&value);
            held.put(value);
        }
    }
}

impl Object for Value {
    fn call(&mut self, line: &mut Line) {
        match line.call() {
            "show" => line.show(&*self),
            "request" => line.show(self.is_request()),
            "copy" => {
                if let Some(copy) = line.made(self.copy(line.alloc)) {
                    put(self, copy, line);
                }
            }
            "write" => {
                if let Some(before) = line.read::<Bytes>() {
                    line.show(written_behind(line.alloc, before.as_slice(), self));
                }
            }
            "equals" => {
                if let Some(other) = line.read::<Value>() {
                    line.show(is_same(self, other));
                }
            }
            _ => line.refuse(CallFault::NoSuchCall),
        }
    }
}

/// The spelling of the value behind other bytes.
fn written_behind(alloc: Global, before: &[u8], value: &Value) -> Result<Bytes, CallFault> {
    let mut bytes = Vec::from_slice(alloc, before)?;
    write_value(&mut bytes, value)?;
    Ok(Bytes::new(bytes))
}

fn is_same(value: &Value, other: Value) -> bool {
    let is_same = *value == other;
    drop(other);
    is_same
}
