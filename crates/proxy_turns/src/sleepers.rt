//! Which of a worker's clients sleep, by their places in its table.

ghost use Rattle.std.specs.Prelude.{◌≡◌, ◌≢◌, ◌<◌, ◌≤◌, ℕ, false};
ghost use Rattle.proxy_turns.specs.Sleepers.{IsMarked, IsNextAwake};

use memchr::memchr;
use resp_wire::NoMemory;
use std::alloc::Global;

const AWAKE: u8 = 0;

const ASLEEP: u8 = 1;

/// A mark for each place: in a byte, so that `memchr` goes past those that sleep. Where there is no mark, nobody sleeps.
#[derive(Drop)]
pub(crate) struct Sleepers {
    marks: Vec<u8>,
}

impl Sleepers {
    pub(crate) fn new(alloc: Global) -> Sleepers
        ensures { (place : ℕ) → IsMarked result.marks.items place → ⊥ }
    {
        Sleepers {
            marks: Vec::new(alloc),
        }
    }

    /// Has marks for the first `count` places.
    pub(crate) fn make_room(&mut self, count: usize) -> Result<(), NoMemory>
        ensures { (place : ℕ) → IsMarked self.new.marks.items place → IsMarked self.old.marks.items place }
    {
        if self.marks.len() < count {
            self.marks.push(AWAKE)?;
        }
        Ok(())
    }

    /// Whether the one at this place sleeps, where there is a mark for it.
    pub(crate) fn note(&mut self, place: usize, asleep: bool)
        ensures others { (other : ℕ) → other ≢ place → IsMarked self.new.marks.items other → IsMarked self.old.marks.items other }
        ensures awake { asleep ≡ false → IsMarked self.new.marks.items place → ⊥ }
    {
        self.mark(place, if asleep { ASLEEP } else { AWAKE });
    }

    /// The one at this place does not sleep.
    pub(crate) fn wake(&mut self, place: usize)
        ensures others { (other : ℕ) → IsMarked self.new.marks.items other → IsMarked self.old.marks.items other }
        ensures woken { IsMarked self.new.marks.items place → ⊥ }
    {
        self.mark(place, AWAKE);
    }

    /// None sleeps.
    pub(crate) fn wake_all(&mut self)
        ensures { (place : ℕ) → IsMarked self.new.marks.items place → ⊥ }
    {
        self.marks.clear();
    }

    fn mark(&mut self, place: usize, mark: u8)
        ensures others { (other : ℕ) → other ≢ place → IsMarked self.new.marks.items other → IsMarked self.old.marks.items other }
        ensures here { IsMarked self.new.marks.items place → mark ≢ 0 }
    {
        if place < self.marks.len() {
            self.marks[place] = mark;
        }
    }

    /// The first at or behind this place, and before `end`, that does not sleep.
    pub(crate) fn next_awake(&self, from: usize, end: usize) -> Option<usize>
        ensures { IsNextAwake self.now.marks.items from end result }
    {
        let place = self.first_awake(from);
        if place < end { Some(place) } else { None }
    }

    fn first_awake(&self, from: usize) -> usize
        ensures behind { from ≤ result }
        ensures asleep { (place : ℕ) → from ≤ place → place < result → IsMarked self.now.marks.items place }
    {
        let Some(marks) = self.marks.get(from..) else {
            return from;
        };
        match memchr(AWAKE, marks) {
            Some(count) => from + count,
            None => from + marks.len(),
        }
    }
}
