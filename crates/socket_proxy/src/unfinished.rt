//! Requests of which not all has come.

ghost use Rattle.std.specs.Prelude.{◌≢◌, ◌<◌, ◌+◌, ◌↔◌, ◌∷◌, ℕ, List, IsTrue};
ghost use Rattle.socket_proxy.specs.Unfinished.{IsHeld, IsMost};

use crate::share::share_of;
use resp_wire::NoMemory;
use std::alloc::Global;
use std::cell::{Cell, RefCell};
use std::rc::Rc;

/// So many bytes of unfinished requests are held for the clients of all workers at most, each of which has its share, beside the
/// largest one of each worker's.
const MAX_UNFINISHED: u64 = 512 * 1024 * 1024;

/// The unfinished requests of a worker's clients.
#[derive(Drop)]
pub(crate) struct Unfinished {
    alloc: Global,
    /// So many bytes may be held beside the largest of them.
    most: u64,
    /// How many bytes are held of all of them together.
    together: Cell<u64>,
    /// So many bytes are held of one of them, which may not be the largest, or 0.
    known: Cell<u64>,
    requests: RefCell<Vec<Rc<HeldRequest>>>,
}

/// The same, for each of the worker's clients.
pub(crate) type SharedUnfinished = Rc<Unfinished>;

/// What is held of one client's request.
#[derive(Drop)]
struct HeldRequest {
    /// How many bytes of it; 0 once it came whole.
    bytes: Cell<u64>,
    /// It was the largest when too much was held.
    is_refused: Cell<bool>,
    /// Where it stands among those of its worker.
    place: Cell<usize>,
}

impl HeldRequest {
    fn new(place: usize) -> HeldRequest {
        HeldRequest {
            bytes: Cell::new(0),
            is_refused: Cell::new(false),
            place: Cell::new(place),
        }
    }
}

impl Unfinished {
    /// No request is unfinished, of one of so many workers.
    pub(crate) fn new(alloc: Global, workers: usize) -> Result<SharedUnfinished, NoMemory> {
        let unfinished = Unfinished {
            alloc,
            most: share_of(MAX_UNFINISHED, workers as u64),
            together: Cell::new(0),
            known: Cell::new(0),
            requests: RefCell::new(Vec::new(alloc)),
        };
        Ok(Rc::new(alloc, unfinished)?)
    }

    /// One more client's request, where nobody else is at the list.
    fn add(&self) -> Result<Option<Rc<HeldRequest>>, NoMemory> {
        let Ok(mut requests) = self.requests.try_borrow_mut() else {
            return Ok(None);
        };
        let request = Rc::new(self.alloc, HeldRequest::new(requests.len()))?;
        let Ok(listed) = request.clone() else {
            return Err(NoMemory);
        };
        requests.push(listed)?;
        Ok(Some(request))
    }

    /// Forgets the request of a client that is gone. The last one of the list takes its place.
    fn remove(&self, request: &HeldRequest) {
        self.set(request, 0);
        let Ok(mut requests) = self.requests.try_borrow_mut() else {
            return;
        };
        let place = request.place.get();
        if place < requests.len() {
            requests.swap_remove(place);
        }
        if let Some(moved) = requests.get(place) {
            moved.place.set(place);
        }
    }

    /// So many bytes of the request are held. Where that is too much for all together, the largest is refused.
    fn set(&self, request: &HeldRequest, bytes: u64) {
        let before = request.bytes.replace(bytes);
        let others = self.together.get().saturating_sub(before);
        let together = others.saturating_add(bytes);
        let known = known_after(self.known.get(), before, bytes);
        self.together.set(together);
        self.known.set(known);
        if is_too_much(together, known, self.most) {
            self.refuse_largest();
        }
    }

    /// Looks for the largest request, and refuses it where too much is held beside it.
    fn refuse_largest(&self) {
        let Ok(requests) = self.requests.try_borrow() else {
            return;
        };
        let Some(largest) = requests.iter().max_by_key(|request| request.bytes.get()) else {
            return;
        };
        let (together, bytes) = (self.together.get(), largest.bytes.get());
        if !is_too_much(together, bytes, self.most) {
            self.known.set(bytes);
            return;
        }
        largest.is_refused.set(true);
        largest.bytes.set(0);
        self.together.set(together.saturating_sub(bytes));
        self.known.set(0);
    }
}

/// Whether more than `most` bytes are held beside the largest request.
fn is_too_much(together: u64, largest: u64, most: u64) -> bool
    ensures { IsTrue result ↔ (most + largest < together) }
{
    together.saturating_sub(largest) > most
}

/// What is held of a request that is known, or 0, once another number of bytes is held of one of them. Where it was the largest,
/// it still is, unless it was this one.
fn known_after(known: u64, before: u64, bytes: u64) -> u64
    ensures held { (others : List ℕ) → IsHeld known (before ∷ others) → IsHeld result (bytes ∷ others) }
    ensures most { (others : List ℕ) → before ≢ known → IsMost known others → IsMost result (bytes ∷ others) }
{
    if bytes >= known {
        return bytes;
    }
    if before == known { 0 } else { known }
}

/// What is held of a client's unfinished request, among those of its worker.
#[derive(Drop)]
pub(crate) struct UnfinishedRequest {
    all: SharedUnfinished,
    bytes: Cell<u64>,
    /// Its entry, once bytes of the client came.
    held: Option<Rc<HeldRequest>>,
}

impl UnfinishedRequest {
    /// No request is begun.
    pub(crate) fn new(all: SharedUnfinished) -> UnfinishedRequest {
        UnfinishedRequest {
            all,
            bytes: Cell::new(0),
            held: None,
        }
    }

    /// Whether bytes of it came.
    pub(crate) fn is_begun(&self) -> bool {
        self.bytes.get() > 0
    }

    /// How many bytes are held of it, and that it is refused, where it is.
    pub(crate) fn refused(&self) -> Option<u64> {
        match &self.held {
            Some(held) if held.is_refused.get() => Some(self.bytes.get()),
            _ => None,
        }
    }

    /// So many bytes more of it came.
    pub(crate) fn grow(&mut self, count: usize) -> Result<(), NoMemory> {
        let bytes = self.bytes.get().saturating_add(count as u64);
        self.bytes.set(bytes);
        if self.held.is_none() {
            self.held = self.all.add()?;
        }
        if let Some(held) = &self.held {
            self.all.set(held, bytes);
        }
        Ok(())
    }

    /// It came whole.
    pub(crate) fn finish(&self) {
        self.bytes.set(0);
        if let Some(held) = &self.held {
            held.is_refused.set(false);
            self.all.set(held, 0);
        }
    }

    /// Its client is gone.
    pub(crate) fn leave(&mut self) {
        if let Some(held) = self.held.take() {
            self.all.remove(&held);
        }
    }
}
