//! The commands between MULTI and EXEC.

ghost use Rattle.std.specs.Prelude.{◌≡◌, ◌∷◌, ◌++◌, [], OnOk, OnErr};
ghost use Rattle.node_server.specs.Blocks.{aborts, has_room, is_open, parts_in, with_part};

use key_split::Part;
use resp_wire::NoMemory;
use std::alloc::Global;
use std::marker::Model;

/// How many commands wait for EXEC at most.
const QUEUE_LIMIT: usize = 1024;

/// Commands that wait for EXEC, in order.
#[derive(Drop)]
pub struct Queue {
    parts: Vec<Part>,
}

impl Model for Queue {
    ghost use Rattle.std.specs.Prelude.{List};
    ghost use Rattle.key_split.specs.PartModel.{PartModel};

    ghost Value = { List PartModel };

    ghost view = { λ queue. queue.parts.items };
}

impl Queue {
    fn new(alloc: Global) -> Queue
        ensures { result ≡ [] }
    {
        Queue {
            parts: Vec::new(alloc),
        }
    }

    /// Puts a command behind the others.
    fn push(&mut self, part: Part) -> Result<(), NoMemory>
        ensures ok { OnOk result (self.new ≡ self.old ++ part ∷ []) }
        ensures err { OnErr result (self.new ≡ self.old) }
    {
        self.parts.push(part)?;
        Ok(())
    }

    fn as_slice(&self) -> &[Part]
        ensures { result.now ≡ self.now }
    {
        self.parts.as_slice()
    }
}

/// What a connection keeps between MULTI and EXEC.
pub enum Block {
    /// No MULTI came.
    Closed,
    /// These commands wait for EXEC.
    Queued(Queue),
    /// A command was refused, so EXEC executes none.
    Aborted,
}

// By hand, so that a proof has one call where a value is let go, and no case for each variant.
impl Drop for Block {
    fn drop(self) {
        match self {
            Block::Queued(queue) => drop(queue),
            Block::Closed | Block::Aborted => {}
        }
    }
}

impl Block {
    /// The block at its MULTI.
    pub(crate) fn open(alloc: Global) -> Block
        ensures { result ≡ Block.Queued [] }
    {
        Block::Queued(Queue::new(alloc))
    }

    /// Whether MULTI came.
    pub(crate) fn is_open(&self) -> bool
        ensures { result ≡ is_open self.now }
    {
        match self {
            Block::Closed => false,
            Block::Queued(_) => true,
            Block::Aborted => true,
        }
    }

    /// Whether EXEC executes nothing, because a command was refused.
    pub(crate) fn aborts(&self) -> bool
        ensures { result ≡ aborts self.now }
    {
        match self {
            Block::Closed => false,
            Block::Queued(_) => false,
            Block::Aborted => true,
        }
    }

    /// The commands that wait.
    pub(crate) fn parts(&self) -> &[Part]
        ensures { result.now ≡ parts_in self.now }
    {
        match self {
            Block::Closed => &[],
            Block::Queued(queue) => queue.as_slice(),
            Block::Aborted => &[],
        }
    }

    /// Whether a further command may wait.
    pub(crate) fn has_room(&self) -> bool
        ensures { result ≡ has_room self.now }
    {
        self.parts().len() < QUEUE_LIMIT
    }

    /// Puts a command behind those that wait. It is dropped where none are executed.
    pub(crate) fn push(&mut self, part: Part) -> Result<(), NoMemory>
        ensures ok { OnOk result (self.new ≡ with_part self.old part) }
        ensures err { OnErr result (self.new ≡ self.old) }
    {
        match self {
            Block::Closed => Ok(()),
            Block::Queued(queue) => queue.push(part),
            Block::Aborted => Ok(()),
        }
    }
}
