//! A link to a node.

ghost use Rattle.std.specs.Prelude.{◌≡◌, ◌<◌, ◌≤◌, ◌+◌, [], ◌∷◌, ◌++◌, true, false, List, OnOk, OnErr, ◌≢◌, IsTrue, ◌↔◌, IfOk, MatchOption, length};
ghost use Rattle.world_laws.specs.Places.{in_requests};
ghost use Rattle.world_laws.specs.State.{requests_of, sent_of};
ghost use Rattle.world_laws.specs.declared.state.LinkRequest.{LinkRequest as Request};
ghost use Rattle.cluster_world.specs.Kept.{FirstEntry, keeps, kept_for, new_link_model, refusal_in};
ghost use Rattle.cluster_world.specs.Rests.{sets_flag, sought as sought_at, LineRests, RequestRests};
ghost use Rattle.cluster_world.specs.Lost.{each_lost};

use crate::asks::{Sought, goes_asking, kept_rest, tickets_rest};
use key_split::{Ticket, Told};
use slot_map::NodeId;
use std::alloc::{AllocError, Global};
use std::marker::Model;
use world_laws::{LinkRequest, Posted, Tickets};

/// What a link keeps of a reply that is not yet fetched.
#[derive(Drop)]
pub(crate) enum Kept {
    /// The reply to ASKING.
    Welcome,
    /// What a command was told that was not executed.
    Refusal(Ticket, Told),
    /// The place in the history of a command that was executed.
    Entry(Ticket, usize),
}

impl Kept {
    /// Who is told what by it; nobody by that of ASKING, and an entry's reply stands in the history.
    pub(crate) fn refusal(self) -> Option<(Ticket, Told)>
        ensures { result ≡ refusal_in self }
    {
        match self {
            Kept::Refusal(ticket, told) => Some((ticket, told)),
            Kept::Welcome | Kept::Entry(..) => None,
        }
    }
}

/// A link: its requests not yet taken, its replies not yet fetched, and the flag that ASKING sets.
#[derive(Drop)]
pub(crate) struct Link {
    node: NodeId,
    is_open: bool,
    requests: Vec<LinkRequest>,
    backs: Vec<Kept>,
    asking: bool,
}

impl Model for Link {
    ghost use Rattle.cluster_world.specs.Kept.{LinkModel};
    ghost use Rattle.resp_wire.specs.contracts.value.Value as value;
    ghost use Rattle.std.specs.Coded.{codes};
    ghost use Rattle.std.specs.Vec.{vec_capacity};

    ghost Value = { LinkModel };

    ghost coded = { Prim.hlevel (codes, value.the_row.coded) };

    ghost view = { λ l. record { node = l.node; is_open = l.is_open; requests = l.requests.items; backs = l.backs.items; asking = l.asking; room = vec_capacity l.backs } };
}

impl Link {
    fn new(alloc: Global, node: NodeId) -> Link
        ensures { result ≡ new_link_model node result.room }
    {
        Link {
            node,
            is_open: true,
            requests: Vec::new(alloc),
            backs: Vec::new(alloc),
            asking: false,
        }
    }

    /// A new link to a run's node, with the run's requests.
    pub(crate) fn with_run(alloc: Global, posted: &Posted) -> Result<Link, AllocError>
        ensures { IfOk result (λ link. link ≡ record (new_link_model posted.now.node link.room) { requests = requests_of posted.now }) }
    {
        let mut link = Link::new(alloc, posted.node);
        link.send(alloc, posted)?;
        Ok(link)
    }

    pub(crate) fn node(&self) -> NodeId
        ensures { result ≡ self.now.node }
    {
        self.node
    }

    pub(crate) fn is_open(&self) -> bool
        ensures { result ≡ self.now.is_open }
    {
        self.is_open
    }

    pub(crate) fn asking(&self) -> bool
        ensures { result ≡ self.now.asking }
    {
        self.asking
    }

    /// Whether a closed link has requests.
    pub(crate) fn can_discard(&self) -> bool
        ensures { IsTrue result ↔ ((self.now.is_open ≡ false) × (self.now.requests ≢ [])) }
    {
        !self.is_open && !self.requests.is_empty()
    }

    pub(crate) fn discard(&mut self)
        ensures { self.new ≡ record self.old { requests = [] } }
    {
        self.requests.clear();
    }

    /// Whether an open link has a reply.
    pub(crate) fn can_fetch(&self) -> bool
        ensures { IsTrue result ↔ ((self.now.is_open ≡ true) × (self.now.backs ≢ [])) }
    {
        self.is_open && !self.backs.is_empty()
    }

    /// Whose the first reply is and the place of its entry, where it is that of a command that was executed.
    pub(crate) fn first_entry(&self) -> Option<(Ticket, usize)>
        ensures { FirstEntry self.now.backs result }
    {
        match self.backs.first() {
            Some(Kept::Entry(ticket, place)) => Some((*ticket, *place)),
            _ => None,
        }
    }

    /// Takes the first reply.
    pub(crate) fn take_back(&mut self) -> Kept
        requires { self.old.backs ≢ [] }
        ensures first { self.old.backs ≡ result ∷ self.new.backs }
        ensures rest { self.new ≡ record self.old { backs = self.new.backs; room = self.new.room } }
    {
        self.backs.remove(0)
    }

    /// The first request.
    pub(crate) fn first_request(&self) -> Option<&LinkRequest>
        ensures { MatchOption result (self.now.requests ≡ []) (λ request. (rest : List Request) × (self.now.requests ≡ request.now ∷ rest)) }
    {
        self.requests.first()
    }

    /// Takes the first request. What comes after ASKING meets the flag.
    pub(crate) fn take_request(&mut self) -> LinkRequest
        requires { self.old.requests ≢ [] }
        ensures first { self.old.requests ≡ result ∷ self.new.requests }
        ensures rest { self.new ≡ record self.old { requests = self.new.requests; asking = sets_flag result } }
    {
        let request = self.requests.remove(0);
        self.asking = sets_flag(&request);
        request
    }

    /// Makes room for `count` more replies.
    pub(crate) fn reserve(&mut self, count: usize) -> Result<(), AllocError>
        ensures same { self.new ≡ record self.old { room = self.new.room } }
        ensures room { OnOk result (length self.new.backs + count ≤ self.new.room) }
    {
        self.backs.reserve(count)
    }

    /// Keeps a reply, for which there is room; a closed link throws it away.
    pub(crate) fn keep(&mut self, kept: Kept)
        requires { length self.old.backs < self.old.room }
        ensures { self.new ≡ keeps self.old kept }
    {
        if self.is_open {
            self.backs.push_reserved(kept);
        }
    }

    /// Whether it is open and leads to this node.
    pub(crate) fn leads_to(&self, node: NodeId) -> bool
        ensures { IsTrue result ↔ ((self.now.is_open ≡ true) × (self.now.node ≡ node)) }
    {
        self.is_open && self.node == node
    }

    /// Puts a run's requests at the end: all of them, or none for want of memory.
    pub(crate) fn send(&mut self, alloc: Global, posted: &Posted) -> Result<(), AllocError>
        ensures ok { OnOk result (self.new ≡ record self.old { requests = self.old.requests ++ requests_of posted.now }) }
        ensures err { OnErr result (self.new ≡ self.old) }
    {
        let tickets = Vec::from_slice(alloc, posted.tickets.as_slice())?;
        self.requests.reserve(2)?;
        if posted.asking {
            self.requests.push_reserved(LinkRequest::Asking);
        }
        self.requests
            .push_reserved(LinkRequest::Runs(Tickets::new(tickets)));
        Ok(())
    }

    /// Who waits on it, in order of sending: each is told that it is lost.
    pub(crate) fn lost(&self, alloc: Global) -> Result<Vec<(Ticket, Told)>, AllocError>
        ensures { IfOk result (λ lost. lost.items ≡ each_lost (kept_for self.now.backs ++ sent_of self.now.requests)) }
    {
        let mut lost = Vec::new(alloc);
        push_answered(&mut lost, &self.backs)?;
        push_sent(&mut lost, &self.requests)?;
        Ok(lost)
    }

    /// Whether it carries no sought command to the node behind ASKING, nor a reply that tells one to ask there.
    pub(crate) fn rests(&self, sought: &Sought) -> bool
        ensures { IsTrue result ↔ LineRests self.now sought.now }
    {
        self.requests_rest(sought) && kept_rest(&self.backs, sought)
    }

    // Whether none of its requests is a sought command for the node and behind ASKING.
    fn requests_rest(&self, sought: &Sought) -> bool
        ensures { IsTrue result ↔ (in_requests (sought_at sought.now) self.now.is_open self.now.node self.now.asking self.now.requests ≡ 0) }
    {
        let mut asking = self.asking;
        let mut rest = self.requests.as_slice();
        while let [request, further @ ..] = rest {
            if !self.request_rests(asking, request, sought) {
                return false;
            }
            asking = sets_flag(request);
            rest = further;
        }
        true
    }

    // Whether the request, which meets this flag, has no sought command for the node behind ASKING.
    fn request_rests(&self, asking: bool, request: &LinkRequest, sought: &Sought) -> bool
        ensures { IsTrue result ↔ RequestRests self.now asking request.now sought.now }
    {
        match request {
            LinkRequest::Asking => true,
            LinkRequest::Runs(tickets) => {
                let goes = goes_asking(asking, self.node, sought.node);
                tickets_rest(tickets.as_slice(), goes, sought)
            }
        }
    }

    /// Closes it; its replies are thrown away.
    pub(crate) fn close(&mut self)
        ensures { self.new ≡ record self.old { is_open = false; backs = []; room = self.new.room } }
    {
        self.is_open = false;
        self.backs.clear();
    }
}

// Whether what comes behind the request meets the flag of ASKING.
fn sets_flag(request: &LinkRequest) -> bool
    ensures { result ≡ sets_flag request.now }
{
    matches!(request, LinkRequest::Asking)
}

// Adds those whose replies these are.
fn push_answered(lost: &mut Vec<(Ticket, Told)>, backs: &[Kept]) -> Result<(), AllocError>
    ensures { OnOk result (lost.new.items ≡ lost.old.items ++ each_lost (kept_for backs.now)) }
{
    let mut rest = backs;
    while let [kept, further @ ..] = rest {
        match kept {
            Kept::Welcome => {}
            Kept::Refusal(ticket, _) => lost.push((*ticket, Told::Lost))?,
            Kept::Entry(ticket, _) => lost.push((*ticket, Told::Lost))?,
        }
        rest = further;
    }
    Ok(())
}

// Adds those whose requests these are.
fn push_sent(lost: &mut Vec<(Ticket, Told)>, requests: &[LinkRequest]) -> Result<(), AllocError>
    ensures { OnOk result (lost.new.items ≡ lost.old.items ++ each_lost (sent_of requests.now)) }
{
    let mut rest = requests;
    while let [request, further @ ..] = rest {
        if let LinkRequest::Runs(tickets) = request {
            push_run(lost, tickets.as_slice())?;
        }
        rest = further;
    }
    Ok(())
}

// Adds those of a run.
fn push_run(lost: &mut Vec<(Ticket, Told)>, tickets: &[Ticket]) -> Result<(), AllocError>
    ensures { OnOk result (lost.new.items ≡ lost.old.items ++ each_lost tickets.now) }
{
    let mut rest = tickets;
    while let [ticket, further @ ..] = rest {
        lost.push((*ticket, Told::Lost))?;
        rest = further;
    }
    Ok(())
}
