//! When a worker begins anew with another table of nodes.

ghost use Rattle.std.specs.Prelude.{◌≡◌, ◌↔◌, IsTrue, false};
ghost use Rattle.socket_proxy.specs.Renewal.{IsApart, IsEmptied, Steps, at_rest, next_due};

/// Milliseconds that pass at least from one time that a worker lets its clients go to the next.
const APART_MILLIS: u64 = 10_000;
/// Seconds after which the clients are cut that are left.
pub(crate) const CUT_SECONDS: u64 = 30;

const CUT_MILLIS: u64 = CUT_SECONDS * 1_000;

/// How far a worker is that begins anew: it lets its clients go, and then goes on with another proxy.
#[derive(Drop)]
pub(crate) struct Renewal {
    /// When it last began to let its clients go, in milliseconds.
    began: Option<u64>,
    is_under_way: bool,
}

/// What comes next.
#[derive(Clone, Copy, PartialEq, Eq)]
pub(crate) enum Step {
    /// Nothing is new.
    Rest,
    /// The clients are to be let go.
    LetGo,
    /// They are gone, or to be cut: the worker begins anew.
    Begin,
}

impl Renewal {
    /// It never began anew.
    pub(crate) fn new() -> Renewal
        ensures { result ≡ at_rest }
    {
        Renewal {
            began: None,
            is_under_way: false,
        }
    }

    /// Whether the clients are being let go.
    pub(crate) fn is_under_way(&self) -> bool
        ensures { result ≡ self.now.is_under_way }
    {
        self.is_under_way
    }

    /// What comes next at this time, in milliseconds, where another table is wanted or not, and all clients are gone or not.
    pub(crate) fn step(&mut self, wanted: bool, served: bool, now: u64) -> Step
        ensures { Steps self.old wanted served now result self.new }
    {
        if self.is_under_way {
            if !is_emptied(served, self.began, now) {
                return Step::Rest;
            }
            return Step::Begin;
        }
        if !wanted {
            return Step::Rest;
        }
        if !is_apart(self.began, now) {
            return Step::Rest;
        }
        self.began = Some(now);
        self.is_under_way = true;
        Step::LetGo
    }

    /// When something may come next without any news, in milliseconds.
    pub(crate) fn next_due(&self, wanted: bool) -> Option<u64>
        ensures { result ≡ next_due self.now wanted }
    {
        let began = self.began?;
        if self.is_under_way {
            return Some(began.saturating_add(CUT_MILLIS));
        }
        wanted.then_some(began.saturating_add(APART_MILLIS))
    }

    /// The worker has begun anew. True where it was on its way to that.
    pub(crate) fn end(&mut self) -> bool
        ensures was { result ≡ self.old.is_under_way }
        ensures ended { self.new ≡ record self.old { is_under_way = false } }
    {
        let was_under_way = self.is_under_way;
        self.is_under_way = false;
        was_under_way
    }
}

/// Whether it may begin anew at this time, where it last did at that.
fn is_apart(last: Option<u64>, now: u64) -> bool
    ensures { IsTrue result ↔ IsApart last now }
{
    match last {
        None => true,
        Some(last) => now.saturating_sub(last) >= APART_MILLIS,
    }
}

/// Whether all clients are gone that were to go at that time, or what is left is to be cut.
fn is_emptied(served: bool, began: Option<u64>, now: u64) -> bool
    ensures { IsTrue result ↔ IsEmptied served began now }
{
    match began {
        None => served,
        Some(began) => served || now.saturating_sub(began) >= CUT_MILLIS,
    }
}
