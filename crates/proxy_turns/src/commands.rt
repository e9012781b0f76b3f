//! The commands of one client.

mod posting;

ghost use Rattle.std.specs.Prelude.{◌≡◌, ◌≢◌, ◌<◌, ◌↔◌, [], ◌∷◌, ◌++◌, List, length, IsSome, IfSome, MatchOption, IsTrue, Some, true, false};
ghost use Rattle.std.specs.FinMap as map;
ghost use Rattle.command_future.specs.CommandModel.{CommandModel};
ghost use Rattle.proxy_turns.specs.DueCommands.{StepOf};
ghost use Rattle.proxy_turns.specs.Commands.{BeginOutcome, Drops, FollowOutcome, HasEnd, HasEndAt, Hears, HearsOne, LastIsOut, TicketWantsPost, WantsPostAt, commanded, in_table, most_together};

use crate::client_limits::{MAX_RUN, MAX_RUN_WORDS};
use crate::pause::pause_millis;
use crate::place::put;
use crate::turned::NextStep;
use command_future::{Command, Want};
use key_split::{Ended, Part, Ticket, Told};
use resp_wire::NoMemory;
use session_order::Session;
use std::alloc::Global;
use std::collections::HashMap;
use std::marker::Model;

/// The commands of the parts of one client that were handed out and have not ended.
#[derive(Drop)]
pub(crate) struct Commands {
    alloc: Global,
    // Handed out and not posted yet, in the order of their parts: they go out together.
    fresh: Vec<Command>,
    // How many bytes their words have.
    words: usize,
    // Posted at least once, by the numbers of their parts.
    posted: HashMap<u64, Command>,
}

impl Model for Commands {
    ghost use Rattle.std.specs.FinMap as map;
    ghost use Rattle.std.specs.Coded.{codes};
    ghost use Rattle.resp_wire.specs.Stored.{coded_data};
    ghost use Rattle.proxy_turns.specs.Commands.{CommandsModel};

    ghost Value = { CommandsModel };

    ghost coded = { Prim.hlevel (codes, coded_data, map.code) };

    ghost view = { λ c. record { fresh = c.fresh.items; posted = map.from_entries c.posted.entries } };
}

impl Commands {
    pub(crate) fn new(alloc: Global) -> Commands
        ensures { result ≡ record { fresh = []; posted = map.empty } }
    {
        Commands {
            alloc,
            fresh: Vec::new(alloc),
            words: 0,
            posted: HashMap::new(alloc),
        }
    }

    /// Whether commands are waiting for their first post.
    pub(crate) fn has_fresh(&self) -> bool
        ensures there { result ≡ true → self.now.fresh ≢ [] }
        ensures none { result ≡ false → self.now.fresh ≡ [] }
    {
        !self.fresh.is_empty()
    }

    /// Whether no command is left.
    pub(crate) fn is_empty(&self) -> bool
        ensures { IsTrue result ↔ (self.now ≡ record { fresh = []; posted = map.empty }) }
    {
        self.fresh.is_empty() && self.posted.is_empty()
    }

    /// The session hands out the earliest part whose turn it is, and its command begins. There is room for it first.
    pub(crate) fn begin(&mut self, session: &mut Session) -> Result<bool, NoMemory>
        ensures { BeginOutcome self.old session.old result self.new session.new }
    {
        self.fresh.reserve(1)?;
        let Some((ticket, part)) = session.ready() else {
            return Ok(false);
        };
        self.words = words_of(&part);
        self.fresh.push_reserved(Command::new(ticket, part));
        Ok(true)
    }

    /// The ticket of the last command that waits for its first post.
    pub(crate) fn last_fresh(&self) -> Option<Ticket>
        ensures { IfSome result (λ ticket. (before : List CommandModel) × (last : CommandModel) × (self.now.fresh ≡ before ++ last ∷ []) × (last.ticket ≡ ticket)) }
    {
        match self.fresh.last() {
            Some(last) => Some(last.ticket()),
            None => None,
        }
    }

    /// Whether one more command may go with those that wait for their first post.
    pub(crate) fn takes_more(&self) -> bool
        ensures { result ≡ true → length self.now.fresh < most_together }
    {
        self.fresh.len() < MAX_RUN && self.words < MAX_RUN_WORDS
    }

    /// The session hands out the part that may go out behind the last command that waits for its first post, and its command begins.
    /// There is room for it first.
    pub(crate) fn follow(&mut self, session: &mut Session) -> Result<bool, NoMemory>
        requires { LastIsOut session.old self.old.fresh }
        ensures { FollowOutcome self.old session.old result self.new session.new }
    {
        let Some(last) = self.last_fresh() else {
            return Ok(false);
        };
        self.fresh.reserve(1)?;
        let Some((ticket, part)) = session.follower(last) else {
            return Ok(false);
        };
        self.words = self.words.saturating_add(words_of(&part));
        self.fresh.push_reserved(Command::new(ticket, part));
        Ok(true)
    }

    /// Drops the commands that were not posted yet, where there are any.
    pub(crate) fn drop_fresh(&mut self) -> bool
        ensures { Drops self.old result self.new }
    {
        if self.fresh.is_empty() {
            return false;
        }
        put(&mut self.fresh, Vec::new(self.alloc));
        true
    }

    /// Tells the command of this ticket what came, where it awaits that. True where it does.
    pub(crate) fn hear(&mut self, ticket: Ticket, told: Told) -> bool
        ensures { Hears self.old ticket told result self.new }
    {
        tell_at(&mut self.posted, ticket, told)
    }

    /// The ticket of the posted command for the part of this number, where it wants to be posted again.
    pub(crate) fn wants_post(&self, number: u64) -> Option<Ticket>
        ensures { MatchOption result (WantsPostAt self.now number → ⊥) (TicketWantsPost self.now number) }
    {
        let Some(command) = self.posted.get(&number) else {
            return None;
        };
        match step_of(command) {
            NextStep::Post(_) => Some(command.ticket()),
            NextStep::End => None,
            NextStep::Rest => None,
        }
    }

    /// What the posted command for the part of this number has to do, once its turn has come.
    pub(crate) fn next_step(&self, number: u64) -> NextStep
        ensures { (c : CommandModel) → map.get self.now.posted number ≡ Some c → StepOf result c }
    {
        match self.posted.get(&number) {
            Some(command) => step_of(command),
            None => NextStep::Rest,
        }
    }

    /// The ticket and the end of the command for the part of this number, where it has ended.
    pub(crate) fn end_of(&self, number: u64) -> Option<(Ticket, &Ended)>
        ensures { MatchOption result (HasEndAt self.now number → ⊥) (λ (ticket, end). HasEnd self.now number ticket end.now) }
    {
        let command = self.posted.get(&number)?;
        Some((command.ticket(), command.end()?))
    }

    /// Takes off the command for the part of this number, which has ended, with its end.
    pub(crate) fn finish(&mut self, number: u64) -> (Ticket, Ended)
        requires { HasEndAt self.old number }
        ensures { HasEnd self.old number result.0 result.1 × (self.new ≡ record self.old { posted = map.remove self.old.posted number }) }
    {
        match take_at(&mut self.posted, number).finish() {
            Ok(ended) => ended,
            Err(_) => unreachable!(),
        }
    }
}

// How many bytes the words of a part have.
fn words_of(part: &Part) -> usize {
    let first = part
        .key()
        .as_slice()
        .len()
        .saturating_add(part.arg().as_slice().len());
    let sizes = part.rest().iter().map(|pair| pair
        .0
        .as_slice()
        .len()
        .saturating_add(pair.1.as_slice().len()));
    sizes.fold(first, usize::saturating_add)
}

fn step_of(command: &Command) -> NextStep
    ensures { StepOf result command.now }
{
    match command.want() {
        Want::Post(asking, named) => NextStep::Post(pause_millis(
            command.followed(),
            asking || named.is_some(),
        )),
        Want::Await => NextStep::Rest,
        Want::Finished => NextStep::End,
    }
}

fn take_at(posted: &mut HashMap<u64, Command>, number: u64) -> Command
    requires { IsSome (map.get (in_table posted.old.entries) number) }
    ensures held { map.get (in_table posted.old.entries) number ≡ Some result }
    ensures left { in_table posted.new.entries ≡ map.remove (in_table posted.old.entries) number }
{
    posted.remove(&number).unwrap()
}

fn tell_at(posted: &mut HashMap<u64, Command>, ticket: Ticket, told: Told) -> bool
    ensures { (fresh : List CommandModel) → Hears (commanded fresh posted.old.entries) ticket told result (commanded fresh posted.new.entries) }
{
    let Some(command) = posted.get_mut(&ticket.part) else {
        drop(told);
        return false;
    };
    tell_command(command, ticket, told)
}

fn tell_command(command: &mut Command, ticket: Ticket, told: Told) -> bool
    ensures { HearsOne command.old ticket told result command.new }
{
    if command.ticket() == ticket && matches!(command.want(), Want::Await) {
        command.told(told);
        return true;
    }
    drop(told);
    false
}
