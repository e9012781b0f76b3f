//! What a world holds, and its events on lanes and links.

ghost use Rattle.std.specs.Prelude.{◌≡◌, ◌==◌, ◌↔◌, ◌<◌, All, IfOk, IsTrue, map, position, length};
ghost use Rattle.key_split.specs.declared.travel.Told.TheVariants as told_of;
ghost use Rattle.cluster_world.specs.Machine.{run_limit, state_of, HaveSlots, MachineAnswers, MayServe};
ghost use Rattle.world_laws.specs.State.{start};
ghost use Rattle.world_laws.specs.World.{last_moment, IsNode, lies_in as lies_in_lane};
ghost use Rattle.command_future.specs.declared.stage.Stage.TheVariants.{Awaits};
ghost use Rattle.world_laws.specs.declared.event.Event.TheVariants as event;

use crate::commands::Commands;
use crate::fault::WorldFault;
use crate::links::Links;
use command_future::{Command, Want};
use key_split::{Part, Ticket, Told};
use node_model::Cluster;
use std::alloc::{AllocError, Global};
use world_laws::{Answer, Event, Posted};

/// The commands, lanes, links and nodes, with what was executed and answered.
#[derive(Drop)]
pub(crate) struct Machine {
    pub(crate) alloc: Global,
    pub(crate) workers: u16,
    pub(crate) cluster: Cluster,
    pub(crate) commands: Commands,
    pub(crate) ups: Vec<Posted>,
    pub(crate) links: Links,
    pub(crate) downs: Vec<(Ticket, Told)>,
    pub(crate) answers: Vec<Answer>,
    pub(crate) moment: u64,
}

// Whether the run lies in the lane: that of its tickets' worker.
fn lies_in(posted: &Posted, lane: u16) -> bool
    ensures { result ≡ lies_in_lane lane posted.now }
{
    match posted.tickets.as_slice() {
        [] => false,
        [ticket, ..] => ticket.worker == lane,
    }
}

// The place of a lane's first run.
fn first_posted(ups: &[Posted], lane: u16) -> Option<usize>
    ensures { result ≡ position (lies_in_lane lane) ups.now }
{
    ups.iter().position(|posted| lies_in(posted, lane))
}

// Each of a run's commands is told that it was not sent.
fn unsent(alloc: Global, tickets: &[Ticket]) -> Result<Vec<(Ticket, Told)>, AllocError>
    ensures { IfOk result (λ pairs. pairs.items ≡ map (λ t. (t, told_of.Unsent)) tickets.now) }
{
    let mut pairs = Vec::new(alloc);
    let mut rest = tickets;
    while let [ticket, later @ ..] = rest {
        pairs.push((*ticket, Told::Unsent))?;
        rest = later;
    }
    Ok(pairs)
}

// The place of a lane's first pair.
fn first_down(downs: &[(Ticket, Told)], lane: u16) -> Option<usize>
    ensures { result ≡ position (λ (x : Ticket × Told). x.0.worker == lane) downs.now }
{
    downs.iter().position(|down| down.0.worker == lane)
}

// Whether the command awaits what it is told.
fn awaits(command: &Command) -> bool
    ensures { IsTrue result ↔ (command.now.stage ≡ Awaits) }
{
    matches!(command.want(), Want::Await)
}

impl Machine {
    /// Nothing has happened yet.
    pub(crate) fn new(alloc: Global, workers: u16, cluster: Cluster) -> Machine
        ensures { state_of result ≡ start workers run_limit cluster }
    {
        Machine {
            alloc,
            workers,
            cluster,
            commands: Commands::new(alloc),
            ups: Vec::new(alloc),
            links: Links::new(alloc),
            downs: Vec::new(alloc),
            answers: Vec::new(alloc),
            moment: 0,
        }
    }

    /// Whether a moment is left for one more event.
    pub(crate) fn has_time(&self) -> bool
        ensures { IsTrue result ↔ (self.now.moment < last_moment) }
    {
        self.moment < u64::MAX
    }

    /// Makes an event in a cluster of this number of nodes.
    pub(crate) fn happen(&mut self, event: &Event, nodes: u8) -> Result<(), WorldFault>
        requires workers { 0 < self.old.workers }
        requires nodes { nodes ≡ length self.old.cluster.stores }
        requires links { All (λ l. IsNode self.old.cluster l.node) self.old.links.links }
        requires slots { HaveSlots (state_of self.old) }
        requires serves { MayServe (state_of self.old) }
        ensures { MachineAnswers (state_of self.old) event.now result (state_of self.new) }
    {
        match event {
            Event::Arrive { client, part } => self.arrive(*client, part),
            Event::Post { tickets, node } => self.post(tickets, *node, nodes),
            Event::Carry { lane, link } => self.carry(*lane, *link),
            Event::Refuse { lane } => self.refuse(*lane),
            Event::Serve { link, verdict } => self.serve(*link, *verdict, nodes),
            Event::Fetch { link } => self.fetch(*link),
            Event::Take { lane } => self.take(*lane),
            Event::Drop { link } => self.close(*link),
            Event::Discard { link } => self.discard(*link),
            Event::Answer { client } => self.answer(*client),
            Event::Import { slot, target } => self.import(*slot, *target),
            Event::Migrate { slot } => self.migrate(*slot),
            Event::MoveKey { slot, key } => self.move_key(*slot, key),
            Event::Own { slot } => self.own(*slot),
            Event::Release { slot } => self.release(*slot),
            Event::Forget { slot } => self.forget(*slot),
            Event::Stay { slot } => self.stay(*slot),
        }
    }

    /// Hands the first run of a lane back, unsent.
    pub(crate) fn refuse(&mut self, lane: u16) -> Result<(), WorldFault>
        ensures { MachineAnswers (state_of self.old) (event.Refuse lane) result (state_of self.new) }
    {
        let Some(first) = first_posted(&self.ups, lane) else {
            return Err(WorldFault::NotNow);
        };
        let mut pairs = unsent(self.alloc, self.ups[first].tickets.as_slice())?;
        self.downs.append(&mut pairs)?;
        drop(self.ups.remove(first));
        Ok(())
    }

    /// Closes a link; who waits on it is told so.
    pub(crate) fn close(&mut self, link: u64) -> Result<(), WorldFault>
        ensures { MachineAnswers (state_of self.old) (event.Drop link) result (state_of self.new) }
    {
        self.links.close(link as usize, &mut self.downs)
    }

    /// Throws the requests of a closed link away.
    pub(crate) fn discard(&mut self, link: u64) -> Result<(), WorldFault>
        ensures { MachineAnswers (state_of self.old) (event.Discard link) result (state_of self.new) }
    {
        self.links.discard(link as usize)
    }

    /// Takes the first reply of a link down to its worker; that of ASKING is dropped.
    pub(crate) fn fetch(&mut self, link: u64) -> Result<(), WorldFault>
        ensures { MachineAnswers (state_of self.old) (event.Fetch link) result (state_of self.new) }
    {
        if !self.links.has_reply(link as usize) {
            return Err(WorldFault::NotNow);
        }
        self.downs.reserve(1)?;
        match self.links.fetch(link as usize) {
            Ok(Some(down)) => {
                self.downs.push_reserved(down);
                Ok(())
            }
            Ok(None) => Ok(()),
            Err(fault) => Err(fault),
        }
    }

    /// Tells the first pair of a lane to its command.
    pub(crate) fn take(&mut self, lane: u16) -> Result<(), WorldFault>
        ensures { MachineAnswers (state_of self.old) (event.Take lane) result (state_of self.new) }
    {
        let Some(first) = first_down(&self.downs, lane) else {
            return Err(WorldFault::NotNow);
        };
        let ticket = self.downs[first].0;
        let Some(place) = self.commands.place_of(ticket) else {
            return Err(WorldFault::NotNow);
        };
        if !awaits(&self.commands.at(place).command) {
            return Err(WorldFault::NotNow);
        }
        let (_, told) = self.downs.remove(first);
        self.commands.told(place, told);
        Ok(())
    }

    /// A client's next command arrives.
    pub(crate) fn arrive(&mut self, client: u32, part: &Part) -> Result<(), WorldFault>
        requires { 0 < self.old.workers }
        ensures { MachineAnswers (state_of self.old) (event.Arrive client part.now) result (state_of self.new) }
    {
        let _ = part.slot();
        let ticket = Ticket {
            worker: (client % u32::from(self.workers)) as u16,
            client,
            part: self.commands.count_of(client) as u64,
        };
        self.commands
            .add(ticket, part.copy(self.alloc)?, self.moment)?;
        Ok(())
    }

    /// Answers a client's oldest unanswered command, which has ended.
    pub(crate) fn answer(&mut self, client: u32) -> Result<(), WorldFault>
        ensures { MachineAnswers (state_of self.old) (event.Answer client) result (state_of self.new) }
    {
        let Some(place) = self.commands.first_unanswered(client) else {
            return Err(WorldFault::NotNow);
        };
        let arrival = self.commands.at(place);
        let Some(end) = arrival.command.end() else {
            return Err(WorldFault::NotNow);
        };
        self.answers.reserve(1)?;
        let answer = Answer {
            ticket: arrival.command.ticket(),
            ended: end.copy(self.alloc)?,
            arrived: arrival.arrived,
            answered: self.moment,
        };
        self.commands.answered(client, place);
        self.answers.push_reserved(answer);
        Ok(())
    }

    /// Puts the first run of a lane on a link, which it opens where the number is the next unused one.
    pub(crate) fn carry(&mut self, lane: u16, link: u64) -> Result<(), WorldFault>
        ensures { MachineAnswers (state_of self.old) (event.Carry lane link) result (state_of self.new) }
    {
        let Some(first) = first_posted(&self.ups, lane) else {
            return Err(WorldFault::NotNow);
        };
        if let Err(fault) = self.links.carry(link as usize, &self.ups[first]) {
            return Err(fault);
        }
        drop(self.ups.remove(first));
        Ok(())
    }
}
