//! How a node of a cluster in one process answers a request.

ghost use Rattle.std.specs.Prelude.{◌≡◌, ◌++◌, ◌∷◌, [], IfOk, OnOk, OnErr, MatchResult, map, None};
ghost use Rattle.key_split.specs.Requests.{Command, requests_of};
ghost use Rattle.key_split.specs.Told.{CanBeWritten, IsWritten};
ghost use Rattle.local_cluster.specs.Addresses.{addresses};
ghost use Rattle.local_cluster.specs.Conversation.{Answers, OldestWasTold, asked_of, asks_next};
ghost use Rattle.local_cluster.specs.Held.{IsSaid, WasTold};
ghost use Rattle.local_cluster.specs.Waiting.{request_of};

use crate::cluster::LocalCluster;
use crate::place::put;
use key_split::{Batch, Part, Ticket, Told, told_value};
use resp_wire::{Line, NoMemory, Value};
use slot_map::{NodeId, NodeTable};
use std::alloc::Global;
use std::collections::VecDeque;
use std::sync::Wait;

/// A request that waits for its node.
pub(crate) enum LocalRequest {
    Asking,
    Command(Ticket, Part),
    Slots,
}

// By hand, so that a proof has one call where a value is let go, and no case for each variant.
impl Drop for LocalRequest {
    fn drop(self) {
        match self {
            LocalRequest::Command(_, part) => drop(part),
            LocalRequest::Asking | LocalRequest::Slots => {}
        }
    }
}

impl LocalRequest {
    // Whether the next request is asking.
    pub(crate) fn asks_next(&self) -> bool
        ensures { result ≡ asks_next (request_of self.now) }
    {
        match self {
            LocalRequest::Asking => true,
            LocalRequest::Command(_, _) | LocalRequest::Slots => false,
        }
    }
}

/// Lets a batch wait: its command, behind ASKING where it asks.
pub(crate) fn keep(
    alloc: Global,
    waiting: &mut VecDeque<LocalRequest>,
    batch: &Batch,
) -> Result<(), NoMemory>
    ensures ok { OnOk result (map request_of waiting.new.items ≡ map request_of waiting.old.items ++ requests_of batch.now) }
    ensures err { OnErr result (waiting.new.items ≡ waiting.old.items) }
{
    waiting.reserve(2)?;
    let part = batch.part.copy(alloc)?;
    let command = LocalRequest::Command(batch.ticket, part);
    if batch.asking {
        waiting.push_back_reserved(LocalRequest::Asking);
        waiting.push_back_reserved(command);
        return Ok(());
    }
    waiting.push_back_reserved(command);
    Ok(())
}

/// What the node writes for the request. `told` is what it was told and is not written yet; want of memory leaves it there.
pub(crate) fn answer<R: Wait>(
    alloc: Global,
    rt: &R,
    cluster: &LocalCluster,
    node: NodeId,
    asking: bool,
    request: &LocalRequest,
    told: &mut Option<Told>,
) -> Result<Value, NoMemory>
    requires { OldestWasTold node asking (request_of request.now ∷ []) told.old }
    ensures ok { IfOk result (Answers node asking (request_of request.now)) }
    ensures written { OnOk result (told.new ≡ None) }
    ensures err { OnErr result (OldestWasTold node asking (request_of request.now ∷ []) told.new) }
{
    match request {
        LocalRequest::Asking => {
            let okay = Line::from_text(alloc, b"OK")?;
            drop(told.take());
            Ok(Value::Simple(okay))
        }
        LocalRequest::Slots => {
            let listing = cluster.list(rt, cluster.table())?;
            drop(told.take());
            Ok(listing)
        }
        LocalRequest::Command(ticket, part) => answer_command(
            alloc, rt, cluster, node, asking, *ticket, part, told,
        ),
    }
}

/// What the node writes for a command.
fn answer_command<R: Wait>(
    alloc: Global,
    rt: &R,
    cluster: &LocalCluster,
    node: NodeId,
    asking: bool,
    ticket: Ticket,
    part: &Part,
    told: &mut Option<Told>,
) -> Result<Value, NoMemory>
    requires { OldestWasTold node asking (Command ticket part.now ∷ []) told.old }
    ensures ok { IfOk result (Answers node asking (Command ticket part.now)) }
    ensures written { OnOk result (told.new ≡ None) }
    ensures err { OnErr result (OldestWasTold node asking (Command ticket part.now ∷ []) told.new) }
{
    let said = say(alloc, rt, cluster, node, asking, ticket, part, told.take())?;
    match write(alloc, said, cluster.table()) {
        Ok(value) => Ok(value),
        Err(said) => {
            put(told, Some(said));
            Err(NoMemory)
        }
    }
}

/// What the node says of a command: what it was told already, or else it is served in one hold of the lock.
fn say<R: Wait>(
    alloc: Global,
    rt: &R,
    cluster: &LocalCluster,
    node: NodeId,
    asking: bool,
    ticket: Ticket,
    part: &Part,
    told: Option<Told>,
) -> Result<Told, NoMemory>
    requires { OldestWasTold node asking (Command ticket part.now ∷ []) told }
    ensures { IfOk result (WasTold (asked_of node asking ticket part.now)) }
{
    if let Some(said) = told {
        return Ok(said);
    }
    let batch = Batch {
        ticket,
        node,
        asking,
        part: part.copy(alloc)?,
    };
    cluster.tell(rt, &batch)
}

/// What a node writes for what it said. Where memory is wanting it comes back.
fn write(alloc: Global, said: Told, table: &NodeTable) -> Result<Value, Told>
    requires said { IsSaid said }
    requires table { table.now ≡ addresses 64 }
    ensures { MatchResult result (IsWritten said (addresses 64)) (λ back. back ≡ said) }
{
    match said {
        Told::Reply(value) => Ok(value),
        other => match spell(alloc, &other, table) {
            Ok(value) => {
                drop(other);
                Ok(value)
            }
            Err(NoMemory) => Err(other),
        },
    }
}

fn spell(alloc: Global, said: &Told, table: &NodeTable) -> Result<Value, NoMemory>
    requires said { IsSaid said.now }
    requires table { table.now ≡ addresses 64 }
    ensures { IfOk result (IsWritten said.now (addresses 64)) }
{
    see_node(said);
    told_value(alloc, said, table)
}

/// A node that is named stands in the table.
fn see_node(said: &Told)
    requires { IsSaid said.now }
    ensures { CanBeWritten said.now (addresses 64) }
{
    match said {
        Told::Moved(_, node) => {
            let _in_table = node.number();
        }
        Told::Ask(_, node) => {
            let _in_table = node.number();
        }
        Told::Reply(_)
        | Told::TryAgain
        | Told::ClusterDown
        | Told::Unclear
        | Told::Lost
        | Told::Unsent => {}
    }
}
