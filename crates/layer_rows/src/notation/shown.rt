//! What is shown in the words of an answer.

use crate::notation::answer::Answer;
use key_split::{Batch, Ended, Part, Run, Ticket, Told, words_of};
use resp_wire::{Bytes, Value};
use slot_hash::Slot;
use slot_map::{MapOp, NodeId};
use std::fmt::Debug;

/// How deep arrays nest: those of a reader do no deeper.
const DEPTH: u32 = 8;

/// What an answer has words for.
pub trait Shown {
    /// Puts its words behind those of the answer.
    fn show(&self, answer: &mut Answer);
}

/// What was done.
impl Shown for () {
    fn show(&self, answer: &mut Answer) {
        answer.name("ok");
    }
}

impl Shown for bool {
    fn show(&self, answer: &mut Answer) {
        answer.name(if *self { "yes" } else { "no" });
    }
}

impl Shown for u64 {
    fn show(&self, answer: &mut Answer) {
        answer.debug(self);
    }
}

impl Shown for usize {
    fn show(&self, answer: &mut Answer) {
        answer.debug(self);
    }
}

impl Shown for u32 {
    fn show(&self, answer: &mut Answer) {
        answer.debug(self);
    }
}

impl Shown for u16 {
    fn show(&self, answer: &mut Answer) {
        answer.debug(self);
    }
}

impl Shown for Slot {
    fn show(&self, answer: &mut Answer) {
        answer.debug(&self.number());
    }
}

impl Shown for NodeId {
    fn show(&self, answer: &mut Answer) {
        answer.debug(&self.number());
    }
}

/// `range FIRST LAST NODE` or `slot SLOT NODE`
impl Shown for MapOp {
    fn show(&self, answer: &mut Answer) {
        match *self {
            MapOp::SetRange(first, last, node) => {
                answer.name("range");
                first.show(answer);
                last.show(answer);
                node.show(answer);
            }
            MapOp::SetSlot(slot, node) => answer.redirect("slot", slot, node),
        }
    }
}

impl Shown for Bytes {
    fn show(&self, answer: &mut Answer) {
        answer.bytes(self.as_slice());
    }
}

impl<T: Shown> Shown for &T {
    fn show(&self, answer: &mut Answer) {
        (**self).show(answer);
    }
}

impl<T: Shown> Shown for Option<T> {
    fn show(&self, answer: &mut Answer) {
        match self {
            Some(shown) => shown.show(answer),
            None => answer.name("none"),
        }
    }
}

/// A fault goes by its name.
impl<T: Shown, F: Debug> Shown for Result<T, F> {
    fn show(&self, answer: &mut Answer) {
        match self {
            Ok(shown) => shown.show(answer),
            Err(fault) => answer.debug(fault),
        }
    }
}

/// One behind the other.
impl<T: Shown, U: Shown> Shown for (T, U) {
    fn show(&self, answer: &mut Answer) {
        self.0.show(answer);
        self.1.show(answer);
    }
}

impl Shown for Value {
    fn show(&self, answer: &mut Answer) {
        answer.value_within(self, DEPTH);
    }
}

impl Shown for Ticket {
    fn show(&self, answer: &mut Answer) {
        let text = format!(in answer.allocator(); "{}.{}.{}", self.worker, self.client, self.part);
        if let Ok(text) = text {
            answer.name(text.as_str());
        }
    }
}

/// The words for a node.
impl Shown for Part {
    fn show(&self, answer: &mut Answer) {
        match words_of(answer.allocator(), self) {
            Ok(words) => answer.words(&words),
            Err(_) => answer.lack_words(),
        }
    }
}

impl Shown for Batch {
    fn show(&self, answer: &mut Answer) {
        self.ticket.show(answer);
        self.node.show(answer);
        answer.name(if self.asking { "asking" } else { "plain" });
        self.part.show(answer);
    }
}

/// Its commands, with `;` between them.
impl Shown for Run {
    fn show(&self, answer: &mut Answer) {
        self.first().show(answer);
        for batch in self.later() {
            answer.name(";");
            batch.show(answer);
        }
    }
}

impl Shown for Told {
    fn show(&self, answer: &mut Answer) {
        match self {
            Told::Reply(value) => {
                answer.name("reply");
                value.show(answer);
            }
            Told::Moved(slot, node) => answer.redirect("moved", *slot, *node),
            Told::Ask(slot, node) => answer.redirect("ask", *slot, *node),
            Told::TryAgain => answer.name("tryagain"),
            Told::ClusterDown => answer.name("clusterdown"),
            Told::Unclear => answer.name("unclear"),
            Told::Lost => answer.name("lost"),
            Told::Unsent => answer.name("unsent"),
        }
    }
}

impl Shown for Ended {
    fn show(&self, answer: &mut Answer) {
        match self {
            Ended::Answered(value) => {
                answer.name("answered");
                value.show(answer);
            }
            Ended::GaveUp => answer.name("gaveup"),
            Ended::Lost => answer.name("lost"),
        }
    }
}

impl Answer {
    pub fn words(&mut self, words: &[Bytes]) {
        for word in words {
            self.bytes(word.as_slice());
        }
    }

    /// A value with arrays that nest no deeper.
    #[cycle(value)]
    fn value_within(&mut self, value: &Value, depth: u32) {
        match value {
            Value::Simple(line) => self.text_of("simple", line.bytes()),
            Value::Error(line) => self.text_of("error", line.bytes()),
            Value::Integer(number) => {
                self.name("integer");
                self.debug(number);
            }
            Value::Bulk(bytes) => self.text_of("bulk", bytes.as_slice()),
            Value::NullBulk => self.name("null"),
            Value::NullArray => self.name("nullarray"),
            Value::Array(items) => self.items_within(items.as_slice(), depth),
        }
    }

    #[cycle(value)]
    fn items_within(&mut self, items: &[Value], depth: u32) {
        self.name("array");
        self.name("[");
        if depth > 0 {
            for item in items {
                self.value_within(item, depth - 1);
            }
        }
        self.name("]");
    }

    fn text_of(&mut self, kind: &str, bytes: &[u8]) {
        self.name(kind);
        self.bytes(bytes);
    }

    fn redirect(&mut self, how: &str, slot: Slot, node: NodeId) {
        self.name(how);
        slot.show(self);
        node.show(self);
    }
}
