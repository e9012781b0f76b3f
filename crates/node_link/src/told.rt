//! What a node's reply says.

ghost use Rattle.std.specs.Prelude.{◌≡◌, ◌<◌, ◌||◌, [], length, codes, IsTrue};
ghost use Rattle.std.specs.Str.{bytes_eq};
ghost use Rattle.resp_wire.specs.Text.{is_one_line};
ghost use Rattle.slot_map.specs.Table.{Grows, host_of, Interns};
ghost use Rattle.node_link.specs.Line.{target_in};
ghost use Rattle.node_link.specs.Telling.{TellOutcome, RefusalOutcome, RedirectOutcome, endpoint_meant, told_how};

use crate::redirect::{is_ask, is_moved, split_word, target_in};
use key_split::Told;
use resp_wire::{NoMemory, Value};
use slot_hash::Slot;
use slot_map::{MapFault, NodeId, NodeTable};

/// How a command is sent on.
#[derive(Clone, Copy)]
enum Redirection {
    Moved,
    Ask,
}

impl Redirection {
    fn told(self, slot: Slot, node: NodeId) -> Told
        ensures { result ≡ told_how self slot node }
    {
        match self {
            Redirection::Moved => Told::Moved(slot, node),
            Redirection::Ask => Told::Ask(slot, node),
        }
    }
}

/// What a value says that the asked node sent. The value comes back where memory was wanting for a node that
/// the table does not hold.
pub fn told_of(value: Value, asked: NodeId, table: &mut NodeTable) -> Result<Told, Value>
    requires { asked < length table.old }
    ensures does { TellOutcome value asked table.old result table.new }
    ensures grown { Grows table.old table.new }
{
    read_reply(value, asked, table)
}

fn read_reply(value: Value, asked: NodeId, table: &mut NodeTable) -> Result<Told, Value>
    requires { asked < length table.old }
    ensures { TellOutcome value asked table.old result table.new }
{
    let Value::Error(line) = &value else {
        return Ok(Told::Reply(value));
    };
    match refusal_in(line.bytes(), asked, table) {
        Ok(Some(told)) => Ok(told),
        Ok(None) => Ok(Told::Reply(value)),
        Err(NoMemory) => Err(value),
    }
}

// What an error line says of its command, or nothing where it is a reply.
fn refusal_in(line: &[u8], asked: NodeId, table: &mut NodeTable) -> Result<Option<Told>, NoMemory>
    requires known { asked < length table.old }
    requires one_line { IsTrue (is_one_line line.now) }
    ensures { RefusalOutcome (host_of table.old asked) line.now table.old result table.new }
{
    let (first, others) = split_word(line);
    if is_moved(first) {
        return match redirected(Redirection::Moved, others, asked, table) {
            Ok(told) => Ok(Some(told)),
            Err(NoMemory) => Err(NoMemory),
        };
    }
    if is_ask(first) {
        return match redirected(Redirection::Ask, others, asked, table) {
            Ok(told) => Ok(Some(told)),
            Err(NoMemory) => Err(NoMemory),
        };
    }
    if first == b"TRYAGAIN".as_slice() {
        return Ok(Some(Told::TryAgain));
    }
    if first == b"CLUSTERDOWN".as_slice() {
        return Ok(Some(Told::ClusterDown));
    }
    Ok(None)
}

// What a redirection says.
fn redirected(
    how: Redirection,
    words: &[u8],
    asked: NodeId,
    table: &mut NodeTable,
) -> Result<Told, NoMemory>
    requires known { asked < length table.old }
    requires one_line { IsTrue (is_one_line words.now) }
    ensures { RedirectOutcome (told_how how) (host_of table.old asked) (target_in words.now) table.old result table.new }
{
    let Some(target) = target_in(words) else {
        return Ok(Told::Unclear);
    };
    let Some(slot) = Slot::new(target.slot) else {
        return Ok(Told::Unclear);
    };
    match intern_meant(target.host, target.port, asked, table) {
        Ok(node) => Ok(how.told(slot, node)),
        Err(MapFault::TooManyNodes) => Ok(Told::Unclear),
        Err(MapFault::NoMemory) => Err(NoMemory),
        Err(MapFault::NotSlots) => unreachable!(),
        Err(MapFault::BadRange) => unreachable!(),
    }
}

// The node that an endpoint means.
fn intern_meant(
    host: &[u8],
    port: u16,
    asked: NodeId,
    table: &mut NodeTable,
) -> Result<NodeId, MapFault>
    requires known { asked < length table.old }
    requires one_line { IsTrue (is_one_line host.now) }
    ensures { Interns table.old (endpoint_meant (host_of table.old asked) (record { host = host.now; port = port })) result table.new }
{
    if is_asked_host(host) {
        return table.intern_beside(asked, port);
    }
    table.intern(host, port)
}

// Whether a host stands for the one that was asked.
fn is_asked_host(host: &[u8]) -> bool
    ensures { result ≡ (bytes_eq host.now [] || bytes_eq host.now (codes "?")) }
{
    host.is_empty() || host == b"?".as_slice()
}
