//! The carrier's ends of one worker's lanes.

ghost use Rattle.std.specs.Option.{ForSome};
ghost use Rattle.proxy_lanes.specs.Beside.{DownLooks};
ghost use Rattle.proxy_lanes.specs.Lane.{IsLane};

use crate::ring::{Inlet, Note, Outlet};
use key_split::{Run, Ticket, Told};

/// The carrier's ends of one worker's lanes.
#[derive(Drop)]
pub struct LaneEnds<H: Drop> {
    up: Inlet<Run>,
    // `None` once it is finished.
    down: Option<Outlet<(Ticket, Told)>>,
    door: Outlet<H>,
}

/// How many items a look found in each lane of a worker.
#[derive(Clone, Copy)]
pub struct LeftInLanes {
    pub up: usize,
    pub down: usize,
    pub door: usize,
}

impl<H: Drop> LaneEnds<H> {
    ghost use Rattle.std.specs.Prelude.{◌≡◌, ◌↔◌, IsTrue, Some};
    ghost use Rattle.proxy_lanes.specs.Beside.{AreBeside, HavePlaces, LanesLook};
    ghost use Rattle.proxy_lanes.specs.Ends.{FinishesDown, GivesDown, HandsOver, SettlesUp, TakesUp};
    ghost use Rattle.proxy_lanes.specs.Lane.{IsNoteOf};

    pub(crate) fn new(up: Inlet<Run>, down: Outlet<(Ticket, Told)>, door: Outlet<H>) -> LaneEnds<H>
        ensures { result ≡ record { up = up; down = Some down; door = door } }
    {
        LaneEnds {
            up,
            down: Some(down),
            door,
        }
    }

    pub(crate) fn take(&mut self) -> Option<Run>
        ensures { TakesUp self.old self.new result }
    {
        self.up.take()
    }

    pub(crate) fn settle(&mut self, note: Note<Run>) -> usize
        requires { IsNoteOf note self.old.up }
        ensures { SettlesUp self.old self.new note result }
    {
        self.up.settle(note)
    }

    pub(crate) fn give(&mut self, ticket: Ticket, told: Told) -> Result<(), (Ticket, Told)>
        ensures { GivesDown self.old self.new (ticket, told) result }
    {
        match &mut self.down {
            Some(outlet) => outlet.post((ticket, told)),
            None => Err((ticket, told)),
        }
    }

    pub(crate) fn finish_down(&mut self) -> Option<Note<(Ticket, Told)>>
        ensures { FinishesDown self.old self.new result }
    {
        let outlet = self.down.take()?;
        outlet.finish()
    }

    pub(crate) fn hand(&mut self, client: H) -> Result<(), H>
        ensures { HandsOver self.old self.new client result }
    {
        self.door.post(client)
    }

    /// Whether a place is known to be free in the lane down and in the lane up, of which this is the other end.
    pub(crate) fn have_places(&self, outlet: &Outlet<Run>) -> bool
        ensures { IsTrue result ↔ HavePlaces outlet.now self.now }
    {
        let below = match &self.down {
            Some(down) => down.has_place(),
            None => true,
        };
        below && outlet.has_place()
    }

    /// Looks at the worker's ends of these lanes.
    pub(crate) fn look_beside(
        &mut self,
        outlet: &mut Outlet<Run>,
        inlet: &mut Inlet<(Ticket, Told)>,
        newcomers: &mut Inlet<H>,
    ) -> LeftInLanes
        requires { AreBeside outlet.old inlet.old newcomers.old self.old }
        ensures { LanesLook outlet.old inlet.old newcomers.old self.old result outlet.new inlet.new newcomers.new self.new }
    {
        let up = self.up.look_beside(outlet);
        let down = look_down(&mut self.down, inlet);
        let door = newcomers.look_beside(&mut self.door);
        LeftInLanes { up, down, door }
    }
}

// Looks down the lane to a worker, while it is open.
fn look_down(down: &mut Option<Outlet<(Ticket, Told)>>, inlet: &mut Inlet<(Ticket, Told)>) -> usize
    requires { ForSome down.old (λ outlet. IsLane outlet inlet.old) }
    ensures { DownLooks down.old inlet.old down.new inlet.new result }
{
    match down {
        Some(outlet) => inlet.look_beside(outlet),
        None => 0,
    }
}
