//! The links, with the history of what their nodes executed.

ghost use Rattle.std.specs.Prelude.{◌≡◌, ◌<◌, ◌≤◌, ◌+◌, ◌↔◌, [], All, IsTrue, length};
ghost use Rattle.std.specs.Borrow.{Bor};
ghost use Rattle.std.specs.Option.{option_map};
ghost use Rattle.std.specs.Vec.{vec_len, vec_capacity};
ghost use Rattle.node_model.specs.Runs.{HaveOneSlot};
ghost use Rattle.cluster_world.specs.Kept.{served_in, KeepsBelow, Notes, NotesAll, NotesFor};
ghost use Rattle.cluster_world.specs.Links.{There, Begins, BeginsRun, Carries, Closes, Discards, Fetches, FirstIs, HasReply, Welcomes, LinkExecutes};
ghost use Rattle.cluster_world.specs.Rests.{LineRests, LinkRests};
ghost use Rattle.world_laws.specs.World.{IsNode};
ghost use Rattle.world_laws.specs.declared.state.LinkRequest.{LinkRequest as Request};
ghost use Rattle.world_laws.specs.declared.state.LinkRequest.TheVariants.{Asking};

use crate::asks::Sought;
use crate::fault::WorldFault;
use crate::link::{Kept, Link};
use key_split::{Part, Ticket, Told};
use node_model::{Cluster, Verdict};
use std::alloc::Global;
use std::collections::VecDeque;
use std::marker::Model;
use world_laws::{Entry, LinkRequest, Posted};

/// The links by their numbers, and what was executed. Of an executed command a link keeps the place of its entry, so that the
/// reply stands in memory once.
#[derive(Drop)]
pub(crate) struct Links {
    alloc: Global,
    links: Vec<Link>,
    history: Vec<Entry>,
}

impl Model for Links {
    ghost use Rattle.std.specs.Prelude.{All, length};
    ghost use Rattle.resp_wire.specs.Stored.{coded_data};
    ghost use Rattle.resp_wire.specs.contracts.value.Value as value;
    ghost use Rattle.std.specs.Coded.{codes};
    ghost use Rattle.cluster_world.specs.Kept.{KeepsBelow};
    ghost use Rattle.cluster_world.specs.Links.{LinksModel, linked};

    ghost Value = { LinksModel };

    ghost coded = { Prim.hlevel (codes, value.the_row.coded, coded_data) };

    ghost view = { λ k. linked k.links.items k.history.items };

    ghost invariant = { λ k. All (KeepsBelow (length k.history.items)) k.links.items };
}

impl Links {
    pub(crate) fn new(alloc: Global) -> Links
        ensures { result ≡ record { links = []; history = [] } }
    {
        Links {
            alloc,
            links: Vec::new(alloc),
            history: Vec::new(alloc),
        }
    }

    /// What was executed so far.
    pub(crate) fn history(&self) -> &[Entry]
        ensures { result.now ≡ self.now.history }
    {
        &self.history
    }

    /// Puts a run on an open link to its node, or on a new one.
    pub(crate) fn carry(&mut self, at: usize, posted: &Posted) -> Result<(), WorldFault>
        ensures { Carries self.old at posted.now result self.new }
    {
        if at > self.links.len() {
            return Err(WorldFault::NotNow);
        }
        if at == self.links.len() {
            let link = Link::with_run(self.alloc, posted)?;
            self.links.push(link)?;
            return Ok(());
        }
        let link = &mut self.links[at];
        if !link.leads_to(posted.node) {
            return Err(WorldFault::NotNow);
        }
        link.send(self.alloc, posted)?;
        Ok(())
    }

    /// Closes a link; who waits on it is told so.
    pub(crate) fn close(
        &mut self,
        at: usize,
        downs: &mut Vec<(Ticket, Told)>,
    ) -> Result<(), WorldFault>
        ensures { Closes self.old at downs.old.items result self.new downs.new.items }
    {
        let Some(link) = self.links.get_mut(at) else {
            return Err(WorldFault::NotNow);
        };
        if !link.is_open() {
            return Err(WorldFault::NotNow);
        }
        let mut lost = link.lost(self.alloc)?;
        downs.append(&mut lost)?;
        link.close();
        Ok(())
    }

    /// Throws the requests of a closed link away.
    pub(crate) fn discard(&mut self, at: usize) -> Result<(), WorldFault>
        ensures { Discards self.old at result self.new }
    {
        let Some(link) = self.links.get_mut(at) else {
            return Err(WorldFault::NotNow);
        };
        if !link.can_discard() {
            return Err(WorldFault::NotNow);
        }
        link.discard();
        Ok(())
    }

    /// Whether an open link has a reply.
    pub(crate) fn has_reply(&self, at: usize) -> bool
        ensures { IsTrue result ↔ There self.now at HasReply }
    {
        let Some(link) = self.links.get(at) else {
            return false;
        };
        link.can_fetch()
    }

    /// Takes the first reply of an open link, and whose it is; that of ASKING is nobody's.
    pub(crate) fn fetch(&mut self, at: usize) -> Result<Option<(Ticket, Told)>, WorldFault>
        ensures { Fetches self.old at result self.new }
    {
        let Some(link) = self.links.get_mut(at) else {
            return Err(WorldFault::NotNow);
        };
        if !link.can_fetch() {
            return Err(WorldFault::NotNow);
        }
        if let Some((ticket, place)) = link.first_entry() {
            let reply = self.history[place].reply.copy(self.alloc)?;
            drop(link.take_back());
            return Ok(Some((ticket, Told::Reply(reply))));
        }
        Ok(link.take_back().refusal())
    }

    /// The first request of a link.
    pub(crate) fn first_request(&self, at: usize) -> Option<&LinkRequest>
        ensures { FirstIs self.now at (option_map (λ (r : Bor Request). r.now) result) }
    {
        let Some(link) = self.links.get(at) else {
            return None;
        };
        link.first_request()
    }

    /// A link's node takes ASKING.
    pub(crate) fn welcome(&mut self, at: usize) -> Result<(), WorldFault>
        requires { There self.old at (Begins Asking) }
        ensures { Welcomes self.old at result self.new }
    {
        let link = &mut self.links[at];
        link.reserve(1)?;
        drop(link.take_request());
        link.keep(Kept::Welcome);
        Ok(())
    }

    /// A link's node takes a run of these parts.
    pub(crate) fn execute(
        &mut self,
        cluster: &mut Cluster,
        at: usize,
        parts: Vec<Part>,
        verdict: Verdict,
        moment: u64,
    ) -> Result<(), WorldFault>
        requires first { There self.old at BeginsRun }
        requires slot { HaveOneSlot parts.items }
        requires nodes { All (λ l. IsNode cluster.old l.node) self.old.links }
        ensures { LinkExecutes self.old cluster.old at parts.items verdict moment result self.new cluster.new }
    {
        let link = &mut self.links[at];
        link.reserve(parts.len())?;
        self.history.reserve(parts.len())?;
        let tolds = cluster.serve_run(link.node(), link.asking(), &parts, verdict)?;
        match link.take_request() {
            LinkRequest::Asking => Ok(()),
            LinkRequest::Runs(tickets) => {
                let tickets = tickets.as_slice();
                note_all(&mut self.history, link, tickets, parts, tolds, moment);
                Ok(())
            }
        }
    }

    /// Whether none of the links carries a sought command to the node behind ASKING, or a reply that tells one to ask there.
    pub(crate) fn rest(&self, sought: &Sought) -> bool
        ensures { IsTrue result ↔ All (λ l. LinkRests l sought.now) self.now.links }
    {
        lines_rest(&self.links, sought)
    }
}

// The same of links in a list.
fn lines_rest(links: &[Link], sought: &Sought) -> bool
    ensures { IsTrue result ↔ All (λ l. LineRests l sought.now) links.now }
{
    links.iter().all(|link| link.rests(sought))
}

// Notes what the commands of a run were told: the link keeps a reply to each.
fn note_all(
    history: &mut Vec<Entry>,
    link: &mut Link,
    tickets: &[Ticket],
    parts: Vec<Part>,
    tolds: Vec<Told>,
    moment: u64,
)
    requires entries { vec_len history.old + length tolds.items ≤ vec_capacity history.old }
    requires replies { length link.old.backs + length tolds.items ≤ link.old.room }
    requires below { KeepsBelow (length history.old.items) link.old }
    ensures { NotesAll history.old.items link.old (served_in tickets.now parts.items tolds.items) moment history.new.items link.new }
{
    let mut parts = VecDeque::from(parts);
    let mut tolds = VecDeque::from(tolds);
    let mut rest = tickets;
    while let [ticket, later @ ..] = rest {
        let Some(part) = parts.pop_front() else {
            return;
        };
        let Some(told) = tolds.pop_front() else {
            return;
        };
        note_for(history, link, *ticket, part, moment, told);
        rest = later;
    }
}

// Notes in the history what a node replied to, and has the link keep what the command was told.
fn note_for(
    history: &mut Vec<Entry>,
    link: &mut Link,
    ticket: Ticket,
    part: Part,
    moment: u64,
    told: Told,
)
    requires entry { vec_len history.old < vec_capacity history.old }
    requires reply { length link.old.backs < link.old.room }
    ensures notes { NotesFor history.old.items link.old ticket part moment told history.new.items link.new }
    ensures room { (vec_len history.new ≤ vec_len history.old + 1) × (vec_capacity history.new ≡ vec_capacity history.old) }
{
    let kept = note(history, ticket, part, moment, told);
    link.keep(kept);
}

// Notes in the history what a node replied to, and gives what its link keeps of it.
fn note(history: &mut Vec<Entry>, ticket: Ticket, part: Part, moment: u64, told: Told) -> Kept
    requires { vec_len history.old < vec_capacity history.old }
    ensures notes { Notes history.old.items ticket part moment told history.new.items result }
    ensures room { (vec_len history.new ≤ vec_len history.old + 1) × (vec_capacity history.new ≡ vec_capacity history.old) }
{
    match told {
        Told::Reply(reply) => {
            let place = history.len();
            history.push_reserved(Entry {
                ticket,
                part,
                reply,
                moment,
            });
            Kept::Entry(ticket, place)
        }
        refusal => Kept::Refusal(ticket, refusal),
    }
}
