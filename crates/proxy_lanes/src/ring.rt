//! One lane: a ring whose items carry their numbers.

ghost use Rattle.std.specs.Prelude.{◌≡◌, ◌+◌, ◌≤◌, length};
ghost use Rattle.rtrb.specs.Ring.{sent, known_free};

mod make;

pub use make::lane;
use rtrb::{Consumer, Finished, Producer, Protocol};
use std::alloc::Global;

/// How many items a lane has room for.
pub const LANE_PLACES: usize = 1024;

/// An item with its number in the lane, from 0.
pub struct Numbered<T: Drop> {
    pub number: u64,
    pub item: T,
}

// By hand, as are those of the ends, so that the crates above prove one call.
impl<T: Drop> Drop for Numbered<T> {
    fn drop(self) {
        let Numbered { number: _, item } = self;
        drop(item);
    }
}

impl<T: Drop> Numbered<T> {
    /// The item alone.
    fn into_item(self) -> T
        ensures { result ≡ self.item }
    {
        let Numbered { number: _, item } = self;
        item
    }
}

/// The k-th item carries the number k.
#[derive(Clone, Copy)]
pub struct InOrder;

impl<T: Drop> Protocol<Numbered<T>> for InOrder {
    ghost allows = { λ before x. x.number ≡ length before };
}

/// The end at which items go in.
pub struct Outlet<T: Drop> {
    producer: Producer<Numbered<T>, Global, InOrder>,
    next: u64,
    ghost counted: { next ≡ length (sent producer) },
    ghost room: { 1024 ≤ known_free producer + length (sent producer) },
}

impl<T: Drop> Drop for Outlet<T> {
    fn drop(self) {
        let Outlet { producer, next: _ } = self;
        drop(producer);
    }
}

/// The end at which items come out.
pub struct Inlet<T: Drop> {
    consumer: Consumer<Numbered<T>, Global, InOrder>,
}

impl<T: Drop> Drop for Inlet<T> {
    fn drop(self) {
        let Inlet { consumer } = self;
        drop(consumer);
    }
}

/// Shows all that was posted, once nothing more can be.
#[derive(Drop)]
pub struct Note<T: Drop> {
    finished: Finished<Numbered<T>, Global, InOrder>,
}

impl<T: Drop> Outlet<T> {
    ghost use Rattle.std.specs.Prelude.{◌<◌, ◌↔◌, IfSome, IsTrue};
    ghost use Rattle.proxy_lanes.specs.Lane.{Posts, FinishesAs, free_places, posted};

    /// Puts the item behind all that was posted. It comes back where no place is known to be free, or no number is left.
    pub fn post(&mut self, item: T) -> Result<(), T>
        ensures { Posts self.old self.new item result }
    {
        if self.next == u64::MAX {
            return Err(item);
        }
        if self.producer.is_full() {
            return Err(item);
        }
        let number = self.next;
        self.producer.push_reserved(Numbered { number, item });
        self.next = number + 1;
        Ok(())
    }

    /// How many items were posted.
    pub fn posted(&self) -> u64
        ensures { result ≡ length (posted self.now) }
    {
        self.next
    }

    /// Whether a place is known to be free.
    pub fn has_place(&self) -> bool
        ensures { IsTrue result ↔ (0 < free_places self.now) }
    {
        self.producer.cached_slots() > 0
    }

    /// Nothing more is posted. `None` where the other end is gone.
    pub fn finish(self) -> Option<Note<T>>
        ensures { IfSome result (FinishesAs self) }
    {
        let Outlet { producer, next: _ } = self;
        let finished = producer.finish()?;
        Some(Note { finished })
    }
}

impl<T: Drop> Inlet<T> {
    ghost use Rattle.std.specs.Prelude.{◌<◌, ◌∷◌, ◌++◌, []};
    ghost use Rattle.rtrb.specs.Ring.{SameConsumer};
    ghost use Rattle.proxy_lanes.specs.Lane.{IsLane, IsNoteOf, Settles, Takes, held, numbered, taken};
    ghost use Rattle.proxy_lanes.specs.Beside.{LooksBeside};

    /// Takes the next item.
    pub fn take(&mut self) -> Option<T>
        ensures { Takes self.old self.new result }
    {
        if self.consumer.is_empty() {
            return None;
        }
        Some(self.take_held())
    }

    // Takes the next item, which was seen in the lane.
    fn take_held(&mut self) -> T
        requires { 0 < length (held self.old) }
        ensures ring { SameConsumer self.old.consumer self.new.consumer }
        ensures taken { taken self.new ≡ taken self.old ++ numbered (length (taken self.old)) result ∷ [] }
        ensures held { held self.old ≡ numbered (length (taken self.old)) result ∷ held self.new }
    {
        self.consumer.pop_known().into_item()
    }

    /// How many items are left. With those that were taken they are all that was ever posted, and the next takes give them.
    pub fn settle(&mut self, note: Note<T>) -> usize
        requires { IsNoteOf note self.old }
        ensures { Settles self.old self.new note result }
    {
        let Note { mut finished } = note;
        self.consumer.slots_after(&mut finished)
    }

    /// How many items are left, where both ends are at hand. With those that were taken they are all that was posted.
    pub fn look_beside(&mut self, outlet: &mut Outlet<T>) -> usize
        requires { IsLane outlet.old self.old }
        ensures { LooksBeside outlet.old self.old outlet.new self.new result }
    {
        outlet.producer.slots_beside(&mut self.consumer);
        self.consumer.slots_beside(&mut outlet.producer)
    }
}
