//! A stream in memory, with a node of a play at its other end.

ghost use Rattle.std.specs.Prelude.{◌≡◌, ◌⊎◌, ◌<◌, ◌≤◌, ◌++◌, OnOk, [], drop, length};
ghost use Rattle.turn_laws.specs.ByteWires.{ReadsItem};
ghost use Rattle.turn_play.specs.Answering.{all_bytes};
ghost use Rattle.turn_play.specs.Hearing.{Hears, item_of};
ghost use Rattle.turn_play.specs.Stream.{StreamAsked, StreamMoves, StreamOffered, far_end, no_failures};
ghost use Rattle.turn_play.specs.Streaming.{Gives, IsPiece, ReadsSome, WritesSome, stream-flows, stream-joined, stream-still};

use crate::answering::answer;
use crate::fault::PlayFault;
use crate::hearing::{Heard, Hearing, hear};
use node_link::{Flow, Stream};
use node_model::{Cluster, Verdict};
use resp_wire::{ByteQueue, NoMemory, Value};
use slot_map::{NodeId, NodeTable};
use std::alloc::Global;
use std::collections::VecDeque;
use std::marker::Model;
use turn_laws::WiredStream;

/// A stream to a node, which reads requests in the bytes that are written and writes replies to be read. From its break on each call
/// of the stream fails.
#[derive(Drop)]
pub struct PlayStream {
    alloc: Global,
    unserved: ByteQueue,
    /// The bytes of replies that are to be read first.
    spelled: ByteQueue,
    /// The replies behind them.
    replies: VecDeque<Value>,
    asking: bool,
    broken: bool,
    most: usize,
}

impl Model for PlayStream {
    ghost use Rattle.std.specs.Prelude.{◌++◌};
    ghost use Rattle.turn_play.specs.Answering.{all_bytes};
    ghost use Rattle.turn_play.specs.Stream.{StreamModel};

    ghost Value = { StreamModel };

    ghost view = { λ s. record { unserved = s.unserved; unread = s.spelled ++ all_bytes s.replies.items; asking = s.asking; broken = s.broken; most = s.most } };
}

impl PlayStream {
    ghost use Rattle.std.specs.Prelude.{true};
    ghost use Rattle.turn_play.specs.Stream.{StreamOutcome, new_stream};
    ghost use Rattle.turn_play.specs.Streaming.{ServesItem};

    /// A stream over which nothing went, each call of which moves at most so many bytes, or one where that is 0.
    pub fn new(alloc: Global, most: usize) -> PlayStream
        ensures { result ≡ new_stream most }
    {
        PlayStream {
            alloc,
            unserved: ByteQueue::new(alloc),
            spelled: ByteQueue::new(alloc),
            replies: VecDeque::new(alloc),
            asking: false,
            broken: false,
            most,
        }
    }

    /// From now on each call of the stream fails. The node may still serve what was written.
    pub fn break_off(&mut self)
        ensures { self.new ≡ record self.old { broken = true } }
    {
        self.broken = true;
    }

    /// From now on each call moves at most so many bytes, or one where that is 0.
    pub fn cut(&mut self, most: usize)
        ensures { self.new ≡ record self.old { most = most } }
    {
        self.most = most;
    }

    /// The node at the other end serves the item that it reads first, and writes its replies. False where none is whole yet. Where
    /// a reply is longer than any reader takes, the commands were executed, and the item still stands first.
    pub fn serve(
        &mut self,
        node: NodeId,
        verdict: Verdict,
        cluster: &mut Cluster,
        nodes: &NodeTable,
    ) -> Result<bool, PlayFault>
        ensures { StreamOutcome nodes.now cluster.old node self.old verdict result cluster.new self.new }
    {
        match self.hear_first()? {
            Hearing::Item(heard, count) => {
                self.serve_item(&heard, count, node, verdict, cluster, nodes)?;
                Ok(true)
            }
            Hearing::Short => Ok(false),
            Hearing::Other => Err(PlayFault::NotServed),
        }
    }

    // What the node reads first.
    fn hear_first(&self) -> Result<Hearing, NoMemory>
        ensures { Hears self.now.unserved result }
    {
        hear(self.alloc, self.unserved.as_slice())
    }

    // Serves the item that stands first, in so many bytes.
    fn serve_item(
        &mut self,
        heard: &Heard,
        count: usize,
        node: NodeId,
        verdict: Verdict,
        cluster: &mut Cluster,
        nodes: &NodeTable,
    ) -> Result<(), PlayFault>
        requires within { count ≤ length self.old.unserved }
        requires first { ReadsItem self.old.unserved (item_of heard.now) (drop count self.old.unserved) }
        ensures { ServesItem nodes.now cluster.old node self.old (item_of heard.now) verdict result cluster.new self.new }
    {
        // room for the replies, so that nothing is executed whose reply has no place
        self.replies.reserve(heard.most_replies())?;
        let mut said = answer(
            self.alloc,
            heard,
            node,
            self.asking,
            verdict,
            cluster,
            nodes,
        )?;
        self.asking = heard.asking_after(self.asking);
        self.unserved.skip(count);
        let _ = self.replies.append(&mut said);
        Ok(())
    }
}

impl PlayStream {
    fn read_some(&mut self, buffer: &mut [u8]) -> Flow
        ensures { ReadsSome self.old buffer.new result self.new }
    {
        if self.broken {
            return Flow::Gone;
        }
        if buffer.is_empty() {
            return Flow::Gone;
        }
        let Ok(()) = spell_first(&mut self.spelled, &mut self.replies) else {
            return Flow::Gone;
        };
        let count = give(&mut self.spelled, self.most, buffer);
        if count == 0 {
            return Flow::Nothing;
        }
        Flow::Bytes(count)
    }

    fn write_some(&mut self, first: &[u8], second: &[u8]) -> Flow
        ensures { WritesSome self.old (first.now ++ second.now) result self.new }
    {
        if self.broken {
            return Flow::Gone;
        }
        let piece = piece_of(first, second, self.most);
        let Ok(()) = self.unserved.push(piece) else {
            return Flow::Gone;
        };
        Flow::Bytes(piece.len())
    }
}

impl Stream for PlayStream {
    ghost failures = { no_failures };

    ghost moved = { StreamMoves };

    ghost asked = { StreamAsked };

    ghost offered = { StreamOffered };

    ghost still = { stream-still };

    ghost joined = { stream-joined };

    /// A read into no buffer fails.
    fn read(&mut self, buffer: &mut [u8]) -> Flow {
        self.read_some(buffer)
    }

    fn write(&mut self, first: &[u8], second: &[u8]) -> Flow {
        self.write_some(first, second)
    }
}

impl WiredStream for PlayStream {
    ghost far = { far_end };

    ghost flows = { stream-flows };
}

/// Spells the first reply, where no byte of one waits.
fn spell_first(spelled: &mut ByteQueue, replies: &mut VecDeque<Value>) -> Result<(), NoMemory>
    ensures same { spelled.new ++ all_bytes replies.new.items ≡ spelled.old ++ all_bytes replies.old.items }
    ensures some { OnOk result ((0 < length spelled.new) ⊎ (replies.new.items ≡ [])) }
{
    if !spelled.as_slice().is_empty() {
        return Ok(());
    }
    let Some(first) = replies.front() else {
        return Ok(());
    };
    spelled.push_value(first)?;
    drop(replies.pop_front());
    Ok(())
}

/// Moves some bytes to the front of the buffer.
fn give(spelled: &mut ByteQueue, most: usize, buffer: &mut [u8]) -> usize
    ensures { Gives spelled.old buffer.new result spelled.new }
{
    let count = most.max(1).min(buffer.len()).min(spelled.as_slice().len());
    buffer[..count].copy_from_slice(&spelled.as_slice()[..count]);
    spelled.skip(count);
    count
}

/// Some bytes off the front of two slices, which stand one behind the other.
fn piece_of<'a>(first: &'a [u8], second: &'a [u8], most: usize) -> &'a [u8]
    ensures { IsPiece (first.now ++ second.now) result.now }
{
    if first.is_empty() {
        return front_of(second, most);
    }
    front_of(first, most)
}

fn front_of(bytes: &[u8], most: usize) -> &[u8]
    ensures { IsPiece bytes.now result.now }
{
    &bytes[..most.max(1).min(bytes.len())]
}
