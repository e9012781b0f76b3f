//! The one history of published operations. It exists in proofs alone: what the code has is its length.

ghost use Rattle.std.specs.Prelude.{◌≡◌, ◌≢◌, ◌++◌, ◌∷◌, [], length, MatchBool};
ghost use mathlib.Core.List.{IsPrefix};
ghost use Rattle.proxy_lanes.specs.History.{head_of};

use logbook::{Gain, Offer, Plain, Play, Rule, Seen, Start, Word};
use slot_map::MapOp;
use std::marker::{Brand, Model, PhantomData};

// How many operations a history holds.
const MOST: u64 = 1 << 62;

/// What holds between any two steps: the word is the length of the history.
pub struct Counted;

impl Rule<MapOp, u64> for Counted {
    ghost use Rattle.std.specs.Prelude.{[]};
    ghost use base.Fml.{ftrue};
    ghost use Rattle.proxy_lanes.specs.History.{IsCounted};

    ghost holds = { λ cells log. IsCounted cells log };

    ghost first = { [] };

    ghost hinted = { λ n log. Unit {0} };

    ghost shows = { λ log. [] };

    ghost keeps = { λ names log. ftrue };

    ghost moves = { λ ask before after answer. Unit {0} };
}

/// Callers trade nothing.
pub struct Nothing;

impl Gain<MapOp, u64> for Nothing {
    ghost use base.Fml.{ftrue};

    ghost after = { λ names about answer. ftrue };
}

/// A step that adds an operation.
pub struct Add;

impl Play<MapOp, u64> for Add {
    ghost use Rattle.proxy_lanes.specs.History.{Adds};

    ghost then = { Adds };
}

impl Plain<MapOp, MapOp, u64> for Add {
    ghost use Rattle.std.specs.Prelude.{None};

    ghost ask = { λ operation. operation };

    ghost state = { λ operation. None };
}

/// Which history it is. Each call of a program picks it.
pub trait Naming {
    ghost use Rattle.logbook.specs.Pages.{Book};

    ghost book: { Book };
}

impl Naming for Brand {
    ghost book = { record { number = 0; log_name = 0; cells_name = 0 } };
}

/// An empty history, which has no name yet.
#[derive(Drop)]
pub struct Opened {
    head: Word<MapOp, u64, Counted>,
    seen: Seen<MapOp, u64, Counted>,
    pub ghost empty: { seen.log ≡ [] },
    pub ghost head_is: { head ≡ head_of seen.book },
}

impl Opened {
    ghost use Rattle.proxy_lanes.specs.Opened.{book_of};

    pub fn new() -> Opened {
        let (seen, mut first, _second) = Seen::open(Start::alone(), 0, 0);
        Opened {
            head: Word::tracked(0, &mut first),
            seen,
        }
    }

    /// The history under a name, and its beginning that has nothing.
    pub(crate) fn named<J: Naming>(self) -> (History<J>, Front<J>)
        requires { book_of self ≡ J.book }
        ensures { result.1 ≡ [] }
    {
        let Opened { head, seen } = self;
        let history = History {
            head,
            of: PhantomData,
        };
        let front = Front {
            count: 0,
            seen,
            of: PhantomData,
        };
        (history, front)
    }
}

/// The word that counts the operations of the history.
#[derive(Drop)]
pub struct History<J: Naming> {
    head: Word<MapOp, u64, Counted>,
    of: PhantomData<J>,
    ghost head_is: { head ≡ head_of J.book },
}

/// A beginning of the history. Contracts see it as its operations.
pub struct Front<J: Naming> {
    count: u64,
    seen: Seen<MapOp, u64, Counted>,
    of: PhantomData<J>,
}

// By hand, so that the crates above prove one call.
impl<J: Naming> Drop for Front<J> {
    fn drop(self) {
        let Front {
            count: _,
            seen,
            of: _,
        } = self;
        drop(seen);
    }
}

impl<J: Naming> Model for Front<J> {
    ghost use Rattle.std.specs.Prelude.{◌≡◌, List, length};
    ghost use Rattle.slot_map.specs.declared.ops.MapOp.{MapOp};

    ghost Value = { List MapOp };

    ghost view = { λ f. f.seen.log };

    ghost invariant = { λ f. (f.count ≡ length f.seen.log) × (f.seen.book ≡ J.book) };
}

impl<J: Naming> Front<J> {
    /// How many operations it has.
    pub fn len(&self) -> u64
        ensures { result ≡ length self.now }
    {
        self.count
    }

    /// A copy.
    pub fn again(&self) -> Front<J>
        ensures { result ≡ self.now }
    {
        Front {
            count: self.count,
            seen: self.seen.again(),
            of: PhantomData,
        }
    }

    /// Of two beginnings the shorter begins the longer.
    pub fn is_in(&self, other: &Front<J>) -> bool
        ensures { MatchBool result (IsPrefix self.now other.now) (IsPrefix other.now self.now × (length self.now ≢ length other.now)) }
    {
        let mut both = self.seen.again();
        both.learn(&other.seen);
        self.count <= other.count
    }

    /// Whether the two are one. They are where they are as long as each other.
    pub fn is_same(&self, other: &Front<J>) -> bool
        ensures { MatchBool result (self.now ≡ other.now) (length self.now ≢ length other.now) }
    {
        let _begins = self.is_in(other);
        self.count == other.count
    }

    // Adds an operation, and says whether it did. It did not where the history is longer than this.
    fn add(&mut self, history: &History<J>, operation: MapOp) -> bool
        ensures { MatchBool result (self.new ≡ self.old ++ operation ∷ []) (Unit {0}) }
    {
        if self.count >= MOST {
            return false;
        }
        let mut offer: Offer<MapOp, u64, Counted, Nothing> = self
            .seen
            .plain::<Nothing, MapOp, Add>(&operation);
        let mut pen = self.seen.no_pen();
        let count = self.count;
        let found = history
            .head
            .compare_exchange::<Add, Nothing>(
                count,
                count + 1,
                &mut self.seen,
                &mut offer,
                &mut pen,
            );
        self.count = if found == count { count + 1 } else { found };
        found == count
    }

    /// Adds operations, and says whether it added all of them.
    pub(crate) fn add_all(&mut self, history: &History<J>, operations: &[MapOp]) -> bool
        ensures { MatchBool result (self.new ≡ self.old ++ operations.now) (Unit {0}) }
    {
        for operation in operations {
            if !self.add(history, *operation) {
                return false;
            }
        }
        true
    }
}
