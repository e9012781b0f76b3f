//! One client's script, planned anew.

ghost use Rattle.std.specs.Prelude.{◌≡◌, ◌≤◌, ◌<◌, ◌+◌, ◌++◌, ◌^◌, None, IfOk, OnOk, false, length, option_map, true};
ghost use Rattle.key_split.specs.Join.{CanJoin};
ghost use Rattle.session_order.specs.Output.{ends_from};
ghost use Rattle.session_order.specs.PendingReply.{goodbye};
ghost use Rattle.session_order.specs.Replies.{bytes_of, joined, lines_owed, spelling};
ghost use Rattle.script_runs.specs.Replayed.{after, goes_on, opened, outcome, outcome_of, says, state_of, takes_parts, where_whole};
ghost use Rattle.script_runs.specs.Requests.{AsksFor, Requested};
ghost use Rattle.script_runs.specs.Run.{ends_of, numbered};
ghost use Rattle.script_runs.specs.Wanted.{IsNumbered};

use crate::client_id::ClientId;
use crate::ends::EndTable;
use crate::reader::reader_of;
use crate::wanted::{Wanted, next_wanted};
use key_split::{Ended, Joining, Part, Parts, Ticket, join};
use resp_wire::{Bytes, NoMemory, Value, write_value};
use session_order::{goodbye, protocol_error};
use std::alloc::Global;

/// A client's script, as far as it was planned.
#[derive(Drop)]
pub(crate) struct Replay {
    /// How many parts its requests so far have.
    pub(crate) number: u64,
    /// These parts, behind those of the clients before it.
    pub(crate) parts: Vec<(Ticket, Part)>,
    /// What the client is answered.
    pub(crate) output: Vec<u8>,
    /// Whether no part lacks its end. Nothing is answered behind one that does.
    pub(crate) is_whole: bool,
}

/// Plans a client's script, and says what it is answered when its parts end so.
pub(crate) fn replay_script(
    alloc: Global,
    script: &Bytes,
    client_id: ClientId,
    ends: &EndTable,
    parts: Vec<(Ticket, Part)>,
) -> Result<Replay, NoMemory>
    ensures { IfOk result (λ made. (asked : Requested) × AsksFor 0 script.now asked × (outcome_of (state_of made) ≡ outcome client_id (ends_of client_id ends.now) (opened parts.items) asked)) }
{
    let mut reader = reader_of(alloc, script)?;
    let mut made = Replay {
        number: 0,
        parts,
        output: Vec::new(alloc),
        is_whole: true,
    };
    loop {
        let wanted = next_wanted(alloc, &mut reader, made.number)?;
        if !made.answer(alloc, client_id, ends, wanted)? {
            return Ok(made);
        }
    }
}

impl Replay {
    /// All parts so far.
    pub(crate) fn into_parts(self) -> Vec<(Ticket, Part)>
        ensures { result ≡ self.parts }
    {
        self.parts
    }

    /// Adds what is wanted, and its reply. Whether more may follow.
    fn answer(
        &mut self,
        alloc: Global,
        client_id: ClientId,
        ends: &EndTable,
        wanted: Wanted,
    ) -> Result<bool, NoMemory>
        requires { IsNumbered self.old.number wanted }
        ensures { IfOk result (λ more. (more ≡ goes_on wanted) × (state_of self.new ≡ after client_id (ends_of client_id ends.now) (state_of self.old) wanted)) }
    {
        match wanted {
            Wanted::Nothing(faulted) => self.say_fault(alloc, faulted),
            Wanted::Skip => Ok(true),
            Wanted::Reply(value) => self.say_reply(value),
            Wanted::Parts(how, planned) => {
                self.take_parts(alloc, client_id, ends, &how, planned)
            }
            Wanted::Close => self.say_goodbye(alloc),
        }
    }

    /// Writes a reply, where nothing before it lacks its own.
    fn say(&mut self, value: Value) -> Result<(), NoMemory>
        ensures { OnOk result (state_of self.new ≡ says (state_of self.old) (spelling value)) }
    {
        say(&mut self.output, self.is_whole, &value)
    }

    /// Writes a reply. More may follow.
    fn say_reply(&mut self, value: Value) -> Result<bool, NoMemory>
        ensures { IfOk result (λ more. (more ≡ true) × (state_of self.new ≡ says (state_of self.old) (spelling value))) }
    {
        self.say(value)?;
        Ok(true)
    }

    /// Writes the reply to QUIT. Nothing follows.
    fn say_goodbye(&mut self, alloc: Global) -> Result<bool, NoMemory>
        ensures { IfOk result (λ more. (more ≡ false) × (state_of self.new ≡ says (state_of self.old) (spelling goodbye))) }
    {
        let reply = goodbye(alloc)?;
        self.say(reply)?;
        Ok(false)
    }

    /// Writes the reply that the ends of a request's parts make.
    #[tactic(auto, unfolding(session_order::specs::Replies::joined))]
    fn say_joined(&mut self, alloc: Global, how: &Joining, own: &[Ended]) -> Result<(), NoMemory>
        requires { CanJoin how.now (length own.now) }
        ensures { OnOk result (state_of self.new ≡ says (state_of self.old) (spelling (joined how.now own.now))) }
    {
        let reply = join(alloc, how, own)?;
        self.say(reply)
    }

    /// Writes the line of a fault, where there was one. Nothing follows.
    fn say_fault(&mut self, alloc: Global, faulted: bool) -> Result<bool, NoMemory>
        ensures { IfOk result (λ more. (more ≡ false) × (state_of self.new ≡ says (state_of self.old) (bytes_of (lines_owed faulted)))) }
    {
        if !faulted {
            return Ok(false);
        }
        let line = protocol_error(alloc)?;
        self.say(line)?;
        Ok(false)
    }

    /// Adds the parts of a request, and writes its reply, where all of them have ended. More may follow.
    fn take_parts(
        &mut self,
        alloc: Global,
        client_id: ClientId,
        ends: &EndTable,
        how: &Joining,
        planned: Parts,
    ) -> Result<bool, NoMemory>
        requires joinable { CanJoin how.now (length planned) }
        requires numbered { self.old.number + length planned ≤ 2 ^ 48 }
        ensures { IfOk result (λ more. (more ≡ true) × (state_of self.new ≡ takes_parts client_id (ends_of client_id ends.now) (state_of self.old) how.now planned)) }
    {
        let count = planned.as_slice().len();
        let first = self.number;
        number_parts(&mut self.parts, client_id, first, planned)?;
        self.number += count as u64;
        let Some(own) = ends_of(alloc, ends, client_id, first, count)? else {
            self.is_whole = false;
            return Ok(true);
        };
        self.say_joined(alloc, how, &own)?;
        Ok(true)
    }
}

/// Writes a reply behind the others, where nothing before it lacks its own.
#[tactic(auto, unfolding(session_order::specs::Replies::spelling))]
fn say(output: &mut Vec<u8>, is_whole: bool, value: &Value) -> Result<(), NoMemory>
    ensures { OnOk result (output.new.items ≡ output.old.items ++ where_whole is_whole (spelling value.now)) }
{
    if is_whole {
        write_value(output, value)
    } else {
        Ok(())
    }
}

/// The ends of `count` parts, from this number on, where all of them have ended.
fn ends_of(
    alloc: Global,
    ends: &EndTable,
    client_id: ClientId,
    number: u64,
    count: usize,
) -> Result<Option<Vec<Ended>>, NoMemory>
    requires { number + count ≤ 2 ^ 48 }
    ensures { IfOk result (λ found. option_map (λ own. own.items) found ≡ ends_from (ends_of client_id ends.now) number count) }
{
    let mut own = Vec::new(alloc);
    for place in 0..count {
        let Some(end) = ends.end_of(client_id.ticket(number + place as u64)) else {
            return Ok(None);
        };
        own.push(end.copy(alloc)?)?;
    }
    Ok(Some(own))
}

/// Puts the parts behind the others, numbered on from this number.
fn number_parts(
    parts: &mut Vec<(Ticket, Part)>,
    client_id: ClientId,
    number: u64,
    planned: Parts,
) -> Result<(), NoMemory>
    requires { number + length planned ≤ 2 ^ 48 }
    ensures { OnOk result (parts.new.items ≡ parts.old.items ++ numbered client_id number planned) }
{
    let mut next = number;
    for part in planned.into_vec() {
        parts.push((client_id.ticket(next), part))?;
        next += 1;
    }
    Ok(())
}
