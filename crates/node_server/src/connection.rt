//! A connection to a node.

ghost use Rattle.std.specs.Prelude.{◌≡◌, ◌<◌, ◌↔◌, IsTrue, OnOk, OnErr, false, [], length};
ghost use Rattle.resp_wire.specs.Seen.{data_of};
ghost use Rattle.session_order.specs.Requests as requests;
ghost use Rattle.session_order.specs.Requests.{asked_of};

use crate::answer::{Answer, answer_request};
use crate::block::Block;
use crate::caller::Caller;
use crate::next_value::{NextValue, feed_reader, take_next};
use key_split::error_line;
use local_cluster::{GhostHistory, LocalState};
use node_link::{Flow, Stream};
use resp_wire::{ByteQueue, Limits, NoMemory, Reader, Value, Words};
use session_order::{RequestKind, kind_of};
use slot_map::{NodeId, NodeTable};
use std::alloc::Global;
use std::marker::Model;

/// How many bytes may wait to be sent before no further request is answered.
const SEND_LIMIT: usize = 64 * 1024;

/// A connection to a node: bytes come in, requests are answered in their order, and replies go out.
#[derive(Drop)]
pub struct Connection {
    alloc: Global,
    caller: Caller,
    /// What came since MULTI.
    block: Block,
    reader: Reader,
    unsent: ByteQueue,
    reads_on: bool,
}

impl Model for Connection {
    ghost use Rattle.node_server.specs.NodeConnections.{ConnectionModel};

    ghost Value = { ConnectionModel };

    ghost view = { λ c. record { caller = c.caller; block = c.block; input = c.reader; unsent = c.unsent; reads_on = c.reads_on } };
}

impl Connection {
    ghost use Rattle.node_server.specs.NodeConnections.{connected, fed, protocol_error, replied, AnswersAsked, AnswersNext, ReceiveOutcome, SendOutcome, Unanswered};

    /// The connection of this number, to a node.
    pub fn new(alloc: Global, node: NodeId, client: u32) -> Connection
        ensures { result ≡ connected node client }
    {
        Connection {
            alloc,
            caller: Caller {
                node,
                client,
                requests: 0,
                asking: false,
            },
            block: Block::Closed,
            reader: Reader::new(alloc, Limits::full()),
            unsent: ByteQueue::new(alloc),
            reads_on: true,
        }
    }

    /// Answers the next request, where a whole one came. It is false where none did, or nothing is read any more.
    pub fn answer_next(
        &mut self,
        state: &mut LocalState<GhostHistory>,
        table: &NodeTable,
    ) -> Result<bool, NoMemory>
        ensures { AnswersNext table.now self.old state.old result self.new state.new }
    {
        if !self.reads_on {
            return Ok(false);
        }
        match take_next(&mut self.reader)? {
            NextValue::Whole(value) => {
                self.answer_value(value, state, table)?;
                Ok(true)
            }
            NextValue::Partial => Ok(false),
            NextValue::Garbled => {
                self.refuse()?;
                Ok(true)
            }
        }
    }

    /// Reads some bytes, by one call of the stream. Those that come when nothing is read any more are dropped.
    pub fn receive<S: Stream>(
        &mut self,
        stream: &mut S,
        buffer: &mut [u8],
    ) -> Result<Flow, NoMemory>
        ensures { ReceiveOutcome S.moved stream.old self.old result stream.new self.new }
    {
        match stream.read(buffer) {
            Flow::Bytes(count) => {
                self.feed(&buffer[..count])?;
                Ok(Flow::Bytes(count))
            }
            Flow::Nothing => Ok(Flow::Nothing),
            Flow::Gone => Ok(Flow::Gone),
        }
    }

    /// Sends some of what is to be sent, by one call of the stream.
    pub fn send<S: Stream>(&mut self, stream: &mut S) -> Flow
        ensures { SendOutcome S.moved stream.old self.old result stream.new self.new }
    {
        match stream.write(self.unsent.as_slice(), &[]) {
            Flow::Bytes(count) => {
                self.unsent.skip(count);
                Flow::Bytes(count)
            }
            Flow::Nothing => Flow::Nothing,
            Flow::Gone => Flow::Gone,
        }
    }

    /// Whether bytes are to be sent.
    pub fn has_unsent(&self) -> bool
        ensures { IsTrue result ↔ (0 < length self.now.unsent) }
    {
        !self.unsent.as_slice().is_empty()
    }

    /// Whether few enough bytes are to be sent for further requests to be answered.
    pub fn has_room(&self) -> bool
        ensures { IsTrue result ↔ (length self.now.unsent < SEND_LIMIT) }
    {
        self.unsent.as_slice().len() < SEND_LIMIT
    }

    /// Whether further requests are read.
    pub fn is_open(&self) -> bool
        ensures { result ≡ self.now.reads_on }
    {
        self.reads_on
    }
}

impl Connection {
    ghost use Rattle.node_server.specs.NodeConnections.{connected, fed, protocol_error, replied, AnswersAsked, AnswersNext, ReceiveOutcome, SendOutcome, Unanswered};

    fn feed(&mut self, piece: &[u8]) -> Result<(), NoMemory>
        ensures ok { OnOk result (self.new ≡ fed self.old piece.now) }
        ensures err { OnErr result (self.new ≡ self.old) }
    {
        if !self.reads_on {
            return Ok(());
        }
        feed_reader(&mut self.reader, piece)
    }

    /// Answers a value.
    fn answer_value(
        &mut self,
        value: Value,
        state: &mut LocalState<GhostHistory>,
        table: &NodeTable,
    ) -> Result<(), NoMemory>
        ensures answered { OnOk result (AnswersAsked table.now self.old state.old (asked_of (data_of value)) self.new state.new) }
        ensures unanswered { OnErr result (Unanswered table.now self.old state.old self.new state.new) }
    {
        match kind_of(self.alloc, value) {
            Ok(RequestKind::Words(words)) => self.answer_words(&words, state, table),
            Ok(RequestKind::Skipped) => Ok(()),
            Ok(RequestKind::Refused) => self.refuse(),
            Err(_) => Err(NoMemory),
        }
    }

    /// Answers a request.
    fn answer_words(
        &mut self,
        words: &Words,
        state: &mut LocalState<GhostHistory>,
        table: &NodeTable,
    ) -> Result<(), NoMemory>
        requires { 0 < length words.now }
        ensures answered { OnOk result (AnswersAsked table.now self.old state.old (requests.Words words.now) self.new state.new) }
        ensures unanswered { OnErr result (Unanswered table.now self.old state.old self.new state.new) }
    {
        let answer = answer_request(
            self.alloc,
            &mut self.caller,
            &mut self.block,
            state,
            table,
            words.as_slice(),
        )?;
        self.reply(&answer)
    }

    /// Answers what is no request.
    fn refuse(&mut self) -> Result<(), NoMemory>
        ensures ok { OnOk result (self.new ≡ replied self.old (Answer.Closes protocol_error)) }
        ensures err { OnErr result (self.new ≡ self.old) }
    {
        let line = error_line(self.alloc, b"ERR protocol error")?;
        self.reply(&Answer::Closes(line))
    }

    /// Puts an answer behind what is to be sent.
    fn reply(&mut self, answer: &Answer) -> Result<(), NoMemory>
        ensures ok { OnOk result (self.new ≡ replied self.old answer.now) }
        ensures err { OnErr result (self.new ≡ self.old) }
    {
        match answer {
            Answer::Says(value) => self.unsent.push_value(value),
            Answer::Closes(value) => {
                self.unsent.push_value(value)?;
                self.reads_on = false;
                Ok(())
            }
        }
    }
}
