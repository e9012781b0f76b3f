//! The replies that are next in order.

ghost use Rattle.std.specs.Prelude.{◌≡◌, ◌≤◌, ◌+◌, ◌-◌, ◌++◌, ℕ, List, [], None, Some, length, drop, take, true, IfOk, OnOk, OnErr, IfSome};
ghost use Rattle.std.specs.Fmt.{decimal};
ghost use Rattle.std.specs.List.{list_all};
ghost use Rattle.resp_wire.specs.Canonical.{line};
ghost use Rattle.resp_wire.specs.Spelling.{dollar};
ghost use Rattle.session_order.specs.Turn.{is_done};
ghost use Rattle.key_split.specs.Join.{CanJoin};
ghost use Rattle.session_order.specs.Due.{AreCounted, WritesFirst, due_of};
ghost use Rattle.session_order.specs.Replies.{HasParts, joined, ReplyOutcome, parts_of, bytes_of, lines_owed, MayBeTail, spelling, tail_in, ArePartsDone, WritesBut};

use crate::queue::Queue;
use crate::texts::protocol_error;
use key_split::{Ended, Joining, join};
use resp_wire::{Bytes, NoMemory, Value, write_bulk_head, write_value};
use std::alloc::Global;
use std::collections::VecDeque;
use std::marker::Model;

/// A body of fewer bytes is always copied.
const LEAST_TAIL: usize = 16 * 1024;

/// What a request is owed: its reply, or one that is joined from the ends of its parts.
#[derive(Drop)]
pub enum PendingReply {
    Reply(Value),
    Parts(Joining, usize),
}

/// What was written of the replies that are next in order.
#[derive(Drop)]
pub struct WrittenReplies {
    /// How many requests they answer.
    pub requests: usize,
    /// How many parts these have.
    pub parts: usize,
    /// The last bytes of the last reply, where they are to stand behind the output and are not in it.
    pub tail: Option<Bytes>,
}

/// What was written of one request's reply.
#[derive(Drop)]
pub enum WrittenReply {
    /// All, and it has this number of parts.
    Whole(usize),
    /// All but its tail, and it has this number of parts.
    Head(usize, Bytes),
    /// Nothing: a part has not ended.
    Nothing,
}

/// What a drain reads: the requests whose replies were not drained, how far their parts are, and the ends of these.
#[derive(Drop)]
pub struct Due<'a> {
    requests: &'a VecDeque<PendingReply>,
    queue: &'a Queue,
    ends: &'a [Ended],
}

impl<'a> Model for Due<'a> {
    ghost use Rattle.session_order.specs.Due.{DueModel, AreCounted};

    ghost Value = { DueModel };

    ghost use Rattle.std.specs.Coded.{codes};
    ghost use Rattle.resp_wire.specs.Stored.{coded_data};

    ghost coded = { Prim.hlevel (codes, coded_data) };

    ghost view = { λ d. record { requests = d.requests.now.items; stages = d.queue.now.stages; ends = d.ends.now } };

    ghost invariant = { λ d. AreCounted d.requests.now.items d.queue.now.stages d.ends.now };
}

impl<'a> Due<'a> {
    pub fn new(requests: &'a VecDeque<PendingReply>, queue: &'a Queue, ends: &'a [Ended]) -> Due<'a>
        requires { AreCounted requests.now.items queue.now.stages ends.now }
        ensures { result ≡ record { requests = requests.now.items; stages = queue.now.stages; ends = ends.now } }
    {
        Due {
            requests,
            queue,
            ends,
        }
    }

    /// Writes replies that are next in order until these are `most` bytes, and behind the last of all the error line, where it is
    /// owed. A large body that would be the end of them is not copied: it is their tail.
    pub fn write(
        &self,
        alloc: Global,
        line_owed: bool,
        most: usize,
        out: &mut Vec<u8>,
    ) -> Result<WrittenReplies, NoMemory>
        ensures written { IfOk result (λ n. WritesFirst most self.now (lines_owed line_owed) out.old.items n out.new.items) }
        ensures parts { IfOk result (λ n. n.parts ≡ parts_of (take n.requests self.now.requests)) }
        ensures grown { (more : List ℕ) × (out.new.items ≡ out.old.items ++ more) }
    {
        let least = least_tail(line_owed, most);
        let written = write_replies(
            alloc,
            self.requests,
            self.queue,
            self.ends,
            most,
            least,
            out,
        )?;
        if line_owed && self.requests.len() <= written.requests {
            write_line(alloc, out)?;
            return Ok(written);
        }
        Ok(written)
    }
}

// The fewest bytes of a body that is not copied where it ends a drain. None where the error line is owed, which may stand
// behind it.
fn least_tail(line_owed: bool, most: usize) -> Option<usize>
    ensures line { line_owed ≡ true → result ≡ None }
    ensures enough { IfSome result (λ least. most ≤ least) }
{
    if line_owed {
        return None;
    }
    Some(most.max(LEAST_TAIL))
}

// Writes replies that are next in order until these are `most` bytes. What ends them may be a tail of `least` bytes or more.
fn write_replies(
    alloc: Global,
    requests: &VecDeque<PendingReply>,
    queue: &Queue,
    ends: &[Ended],
    most: usize,
    least: Option<usize>,
    out: &mut Vec<u8>,
) -> Result<WrittenReplies, NoMemory>
    requires counted { AreCounted requests.now.items queue.now.stages ends.now }
    requires enough { IfSome least (λ n. most ≤ n) }
    ensures written { IfOk result (λ n. WritesFirst most (due_of requests.now.items queue.now.stages ends.now) [] out.old.items n out.new.items) }
    ensures parts { IfOk result (λ n. n.parts ≡ parts_of (take n.requests requests.now.items)) }
    ensures tail { IfOk result (λ n. MayBeTail least n.tail) }
    ensures grown { (more : List ℕ) × (out.new.items ≡ out.old.items ++ more) }
{
    let start = out.len();
    let mut parts = 0;
    for i in 0..requests.len() {
        if out.len() - start >= most {
            return Ok(copied(i, parts));
        }
        match write_reply(alloc, &requests[i], queue, ends, parts, least, out)? {
            WrittenReply::Whole(count) => parts += count,
            WrittenReply::Head(count, tail) => {
                return Ok(WrittenReplies {
                    requests: i + 1,
                    parts: parts + count,
                    tail: Some(tail),
                });
            }
            WrittenReply::Nothing => return Ok(copied(i, parts)),
        }
    }
    Ok(copied(requests.len(), parts))
}

// All bytes of the replies to this number of requests, with this number of parts, are in the output.
fn copied(requests: usize, parts: usize) -> WrittenReplies
    ensures requests { result.requests ≡ requests }
    ensures parts { result.parts ≡ parts }
    ensures tail { result.tail ≡ None }
{
    WrittenReplies {
        requests,
        parts,
        tail: None,
    }
}

#[tactic(auto, unfolding(crate::specs::Replies::spelling))]
// Writes one request's reply, if its parts have all ended. They begin behind these many parts, which are done.
fn write_reply(
    alloc: Global,
    owed: &PendingReply,
    queue: &Queue,
    ends: &[Ended],
    from: usize,
    least: Option<usize>,
    out: &mut Vec<u8>,
) -> Result<WrittenReply, NoMemory>
    requires known { list_all is_done (take from queue.now.stages) ≡ true }
    requires places { length ends.now ≡ length queue.now.stages }
    requires fits { from ≤ length ends.now }
    requires parts { HasParts owed.now (length ends.now - from) }
    ensures does { ReplyOutcome owed.now (drop from queue.now.stages) (drop from ends.now) out.old.items result out.new.items }
    ensures done { IfOk result (λ written. ArePartsDone (drop from queue.now.stages) written) }
    ensures tail { IfOk result (λ written. MayBeTail least (tail_in written)) }
{
    match owed {
        PendingReply::Reply(value) => {
            write_value(out, value)?;
            Ok(WrittenReply::Whole(0))
        }
        PendingReply::Parts(how, count) => {
            if !queue.are_done(from, *count) {
                return Ok(WrittenReply::Nothing);
            }
            match write_joined(alloc, how, ends, from, *count, least, out)? {
                Some(tail) => Ok(WrittenReply::Head(*count, tail)),
                None => Ok(WrittenReply::Whole(*count)),
            }
        }
    }
}

#[tactic(auto, unfolding(crate::specs::Replies::joined, crate::specs::Replies::spelling))]
// Writes the reply that the ends of a request's parts make, and gives back its tail, if it is large. The
// `count` ends begin at place `from`. The value that the one part of a request was answered with is written as it stands.
fn write_joined(
    alloc: Global,
    how: &Joining,
    ends: &[Ended],
    from: usize,
    count: usize,
    least: Option<usize>,
    out: &mut Vec<u8>,
) -> Result<Option<Bytes>, NoMemory>
    requires fits { from + count ≤ length ends.now }
    requires joinable { CanJoin how.now count }
    ensures ok { IfOk result (λ tail. WritesBut tail (joined how.now (take count (drop from ends.now))) out.old.items out.new.items) }
    ensures err { OnErr result (out.new.items ≡ out.old.items) }
    ensures tail { IfOk result (λ tail. MayBeTail least tail) }
{
    if let (Joining::One, Some(Ended::Answered(value))) = (how, ends.get(from)) {
        return write_answer(value, least, out);
    }
    write_made(out, join(alloc, how, &ends[from..from + count])?)?;
    Ok(None)
}

#[tactic(auto, unfolding(crate::specs::Replies::spelling))]
// Writes a value, but for the tail of a large one, which it gives back.
fn write_answer(
    value: &Value,
    least: Option<usize>,
    out: &mut Vec<u8>,
) -> Result<Option<Bytes>, NoMemory>
    ensures ok { IfOk result (λ tail. WritesBut tail value.now out.old.items out.new.items) }
    ensures err { OnErr result (out.new.items ≡ out.old.items) }
    ensures tail { IfOk result (λ tail. MayBeTail least tail) }
{
    let Some((len, tail)) = large_body(value, least) else {
        write_value(out, value)?;
        return Ok(None);
    };
    write_bulk_head(out, len)?;
    Ok(Some(tail))
}

#[tactic(auto, unfolding(crate::specs::Replies::spelling))]
// How many bytes a large body has, and these with the line end behind them.
fn large_body(value: &Value, least: Option<usize>) -> Option<(usize, Bytes)>
    ensures spelled { IfSome result (λ body. spelling value.now ≡ line dollar (decimal body.0) body.1) }
    ensures large { IfSome result (λ body. MayBeTail least (Some body.1)) }
{
    let (Some(least), Value::Bulk(body)) = (least, value) else {
        return None;
    };
    let len = body.as_slice().len();
    if len < least {
        return None;
    }
    Some((len, body.with_line_end()?))
}

#[tactic(auto, unfolding(crate::specs::Replies::spelling))]
// Writes the error line.
fn write_line(alloc: Global, out: &mut Vec<u8>) -> Result<(), NoMemory>
    ensures ok { OnOk result (out.new.items ≡ out.old.items ++ bytes_of (lines_owed true)) }
    ensures err { OnErr result (out.new.items ≡ out.old.items) }
{
    write_made(out, protocol_error(alloc)?)
}

#[tactic(auto, unfolding(crate::specs::Replies::spelling))]
// Writes a value that was made to be written.
fn write_made(out: &mut Vec<u8>, value: Value) -> Result<(), NoMemory>
    ensures ok { OnOk result (out.new.items ≡ out.old.items ++ spelling value) }
    ensures err { OnErr result (out.new.items ≡ out.old.items) }
{
    write_value(out, &value)
}
