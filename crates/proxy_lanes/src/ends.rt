//! The ends of all lanes: one for each worker, and the carrier's.

mod lane_ends;
mod made;

use crate::history::Naming;
use crate::map_view::MapView;
use crate::ring::{Inlet, Note, Outlet};
use key_split::{Run, Ticket, Told};
pub use lane_ends::{LaneEnds, LeftInLanes};
pub use made::lanes;

/// The end at which a worker takes the clients that are handed to it.
pub type Newcomers<H> = Inlet<H>;

/// A worker's ends: what it posts goes up, what it takes came down, and new clients come in.
#[derive(Drop)]
pub struct WorkerEnds<H: Drop, J: Naming> {
    pub worker: u16,
    /// How many workers there are.
    pub workers: u16,
    pub outlet: Outlet<Run>,
    pub inlet: Inlet<(Ticket, Told)>,
    pub newcomers: Newcomers<H>,
    pub view: MapView<J>,
}

/// The other ends, by worker, and the map's writer.
pub struct CarrierEnds<H: Drop, M: Drop> {
    lanes: Vec<LaneEnds<H>>,
    pub map: M,
}

// By hand, so that the crates above prove one call.
impl<H: Drop, M: Drop> Drop for CarrierEnds<H, M> {
    fn drop(self) {
        let CarrierEnds { lanes, map } = self;
        drop(lanes);
        drop(map);
    }
}

impl<H: Drop, M: Drop> CarrierEnds<H, M> {
    ghost use Rattle.std.specs.Prelude.{◌≡◌, ◌<◌, ◌↔◌, IsTrue, length, slice_get};
    ghost use Rattle.std.specs.Option.{ForSome};
    ghost use Rattle.proxy_lanes.specs.Lane.{IsNoteOf};
    ghost use Rattle.proxy_lanes.specs.Ends.{ChangesAt, FinishesDown, GivesDown, HandsOver, SettlesUp, TakesUp};
    ghost use Rattle.proxy_lanes.specs.Carrier.{lanes_of};
    ghost use Rattle.proxy_lanes.specs.Beside.{AreBeside, HavePlaces, LanesLook};

    /// How many workers there are.
    pub fn workers(&self) -> usize
        ensures { result ≡ length (lanes_of self.now) }
    {
        self.lanes.len()
    }

    /// Takes the next run of this worker.
    pub fn take(&mut self, worker: u16) -> Option<Run>
        requires { worker < length (lanes_of self.old) }
        ensures lane { ChangesAt (lanes_of self.old) worker (lanes_of self.new) (λ old new. TakesUp old new result) }
        ensures workers { length (lanes_of self.new) ≡ length (lanes_of self.old) }
        ensures map { self.new.map ≡ self.old.map }
    {
        self.lanes[usize::from(worker)].take()
    }

    /// Gives the worker what it is told. It comes back where no place is known to be free, or the lane is finished.
    pub fn give(&mut self, worker: u16, ticket: Ticket, told: Told) -> Result<(), (Ticket, Told)>
        requires { worker < length (lanes_of self.old) }
        ensures lane { ChangesAt (lanes_of self.old) worker (lanes_of self.new) (λ old new. GivesDown old new (ticket, told) result) }
        ensures workers { length (lanes_of self.new) ≡ length (lanes_of self.old) }
        ensures map { self.new.map ≡ self.old.map }
    {
        self.lanes[usize::from(worker)].give(ticket, told)
    }

    /// Hands a new client to this worker. It comes back where no place is known to be free.
    pub fn hand(&mut self, worker: u16, client: H) -> Result<(), H>
        requires { worker < length (lanes_of self.old) }
        ensures lane { ChangesAt (lanes_of self.old) worker (lanes_of self.new) (λ old new. HandsOver old new client result) }
        ensures workers { length (lanes_of self.new) ≡ length (lanes_of self.old) }
        ensures map { self.new.map ≡ self.old.map }
    {
        self.lanes[usize::from(worker)].hand(client)
    }

    /// Nothing more is given to this worker. `None` the second time, or where the worker's end is gone.
    pub fn finish_down(&mut self, worker: u16) -> Option<Note<(Ticket, Told)>>
        requires { worker < length (lanes_of self.old) }
        ensures lane { ChangesAt (lanes_of self.old) worker (lanes_of self.new) (λ old new. FinishesDown old new result) }
        ensures workers { length (lanes_of self.new) ≡ length (lanes_of self.old) }
        ensures map { self.new.map ≡ self.old.map }
    {
        self.lanes[usize::from(worker)].finish_down()
    }

    /// How many runs of this worker are left to take, once it has finished.
    pub fn settle(&mut self, worker: u16, note: Note<Run>) -> usize
        requires worker { worker < length (lanes_of self.old) }
        requires note { ForSome (slice_get (lanes_of self.old) worker) (λ lane. IsNoteOf note lane.up) }
        ensures lane { ChangesAt (lanes_of self.old) worker (lanes_of self.new) (λ old new. SettlesUp old new note result) }
        ensures workers { length (lanes_of self.new) ≡ length (lanes_of self.old) }
        ensures map { self.new.map ≡ self.old.map }
    {
        self.lanes[usize::from(worker)].settle(note)
    }

    /// Whether a place is known to be free in this worker's lane down and in its lane up, whose other end is given.
    pub fn have_places(&self, worker: u16, outlet: &Outlet<Run>) -> bool
        requires { worker < length (lanes_of self.now) }
        ensures { ForSome (slice_get (lanes_of self.now) worker) (λ lane. IsTrue result ↔ HavePlaces outlet.now lane) }
    {
        self.lanes[usize::from(worker)].have_places(outlet)
    }

    /// Looks at this worker's ends of its lanes. What was taken from each and what is left are then all that was posted.
    pub fn look_beside(
        &mut self,
        worker: u16,
        outlet: &mut Outlet<Run>,
        inlet: &mut Inlet<(Ticket, Told)>,
        newcomers: &mut Inlet<H>,
    ) -> LeftInLanes
        requires worker { worker < length (lanes_of self.old) }
        requires beside { ForSome (slice_get (lanes_of self.old) worker) (AreBeside outlet.old inlet.old newcomers.old) }
        ensures lane { ChangesAt (lanes_of self.old) worker (lanes_of self.new) (λ old new. LanesLook outlet.old inlet.old newcomers.old old result outlet.new inlet.new newcomers.new new) }
        ensures map { self.new.map ≡ self.old.map }
    {
        self.lanes[usize::from(worker)].look_beside(outlet, inlet, newcomers)
    }
}
