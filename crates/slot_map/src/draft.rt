//! A table to which nodes are added on trial. It takes no memory.

ghost use Rattle.std.specs.Prelude.{◌≡◌, ◌<◌};
ghost use Rattle.std.specs.List.{list_any};
ghost use Rattle.slot_map.specs.Table.{same_endpoint};

use crate::endpoint::Address;
use crate::node::NODE_LIMIT;
use crate::table::NodeTable;
use arrayvec::ArrayVec;
use std::marker::Model;

/// The nodes of a table, and those that were added.
#[derive(Drop)]
pub(crate) struct Draft<'a> {
    table: &'a NodeTable,
    added: ArrayVec<Address<'a>, NODE_LIMIT>,
}

impl<'a> Model for Draft<'a> {
    ghost use Rattle.std.specs.Prelude.{List, ◌++◌};
    ghost use Rattle.slot_map.specs.Table.{Endpoint};

    ghost Value = { List Endpoint };

    ghost view = { λ draft. draft.table.now ++ draft.added.items };
}

impl<'a> Draft<'a> {
    ghost use Rattle.slot_map.specs.Table.{Admits, numbered, Grows};

    pub(crate) fn new(table: &'a NodeTable) -> Draft<'a>
        ensures { result ≡ table.now }
    {
        Draft {
            table,
            added: ArrayVec::new(),
        }
    }

    /// Whether the table has a number for the node, which is then in it.
    pub(crate) fn admit(&mut self, at: Address<'a>) -> bool
        ensures admits { Admits (numbered self.old at.entry) self.old result self.new }
        ensures grows { Grows self.old self.new }
    {
        if self.holds(&at) {
            return true;
        }
        if self.table.len() + self.added.len() >= NODE_LIMIT {
            return false;
        }
        self.added.push(at);
        true
    }

    fn holds(&self, at: &Address<'a>) -> bool
        ensures { result ≡ list_any (same_endpoint at.now) self.now }
    {
        self.table.holds(at) || stands_in(at, self.added.as_slice())
    }
}

fn stands_in<'a>(at: &Address<'a>, added: &[Address<'a>]) -> bool
    ensures { result ≡ list_any (same_endpoint at.now) added.now }
{
    added.iter().any(|other| at.is_that_of(other))
}
