//! How the nodes of links serve what the links carry.

ghost use Rattle.std.specs.Prelude.{◌≡◌, ◌↔◌, All, IsTrue, List, length};
ghost use Rattle.key_split.specs.declared.travel.Ticket.{Ticket as Row};
ghost use Rattle.node_model.specs.Runs.{HaveOneSlot};
ghost use Rattle.node_model.specs.Serving.{names_node as named_among};
ghost use Rattle.node_model.specs.declared.role.Verdict.TheVariants as verdict_of;
ghost use Rattle.world_laws.specs.World.{IsNode, NamesNode};
ghost use Rattle.world_laws.specs.declared.event.Event.TheVariants as event;
ghost use Rattle.world_laws.specs.declared.state.LinkRequest.TheVariants as request;
ghost use Rattle.cluster_world.specs.Links.{There, Begins};
ghost use Rattle.cluster_world.specs.Machine.{state_of, HaveSlots, MachineAnswers, MayServe};
ghost use Rattle.cluster_world.specs.Serving.{AreParts, GivesParts};

use crate::commands::Commands;
use crate::fault::WorldFault;
use crate::machine::Machine;
use key_split::{Part, Ticket};
use node_model::Verdict;
use std::alloc::Global;
use world_laws::LinkRequest;

impl Machine {
    /// A link's node takes its first request, in a cluster of this number of nodes.
    pub(crate) fn serve(&mut self, link: u64, verdict: Verdict, nodes: u8) -> Result<(), WorldFault>
        requires nodes { nodes ≡ length self.old.cluster.stores }
        requires links { All (λ l. IsNode self.old.cluster l.node) self.old.links.links }
        requires slots { HaveSlots (state_of self.old) }
        requires serves { MayServe (state_of self.old) }
        ensures { MachineAnswers (state_of self.old) (event.Serve link verdict) result (state_of self.new) }
    {
        let Some(request) = self.links.first_request(link as usize) else {
            return Err(WorldFault::NotNow);
        };
        match request {
            LinkRequest::Asking => self.serve_asking(link, verdict),
            LinkRequest::Runs(tickets) => {
                if !names_node(&verdict, nodes) {
                    return Err(WorldFault::NotNow);
                }
                let parts = parts_of(self.alloc, &self.commands, tickets.as_slice())?;
                self.serve_run(link, parts, verdict)
            }
        }
    }

    // The first request is ASKING.
    fn serve_asking(&mut self, link: u64, verdict: Verdict) -> Result<(), WorldFault>
        requires { There self.old.links link (Begins request.Asking) }
        ensures { MachineAnswers (state_of self.old) (event.Serve link verdict) result (state_of self.new) }
    {
        if !is_plain(verdict) {
            return Err(WorldFault::NotNow);
        }
        self.links.welcome(link as usize)
    }

    // The first request is a run of these parts.
    fn serve_run(&mut self, link: u64, parts: Vec<Part>, verdict: Verdict) -> Result<(), WorldFault>
        requires first { There self.old.links link (λ l. (tickets : List Row) × Begins (request.Runs tickets) l × AreParts self.old.commands tickets parts.items) }
        requires slot { HaveOneSlot parts.items }
        requires links { All (λ l. IsNode self.old.cluster l.node) self.old.links.links }
        requires serves { MayServe (state_of self.old) }
        requires named { NamesNode self.old.cluster verdict }
        ensures { MachineAnswers (state_of self.old) (event.Serve link verdict) result (state_of self.new) }
    {
        self.links.execute(
            &mut self.cluster,
            link as usize,
            parts,
            verdict,
            self.moment,
        )
    }
}

// The parts of the tickets' commands, in memory of their own.
fn parts_of(alloc: Global, commands: &Commands, tickets: &[Ticket]) -> Result<Vec<Part>, WorldFault>
    ensures { GivesParts commands.now tickets.now result }
{
    let mut parts = Vec::new(alloc);
    let mut rest = tickets;
    while let [ticket, later @ ..] = rest {
        let Some(place) = commands.place_of(*ticket) else {
            return Err(WorldFault::NotNow);
        };
        let part = commands.at(place).command.part();
        let _ = part.slot();
        parts.push(part.copy(alloc)?)?;
        rest = later;
    }
    Ok(parts)
}

// Whether it is the verdict that a node serves ASKING with.
fn is_plain(verdict: Verdict) -> bool
    ensures { IsTrue result ↔ (verdict ≡ verdict_of.Plain) }
{
    matches!(verdict, Verdict::Plain)
}

// Whether a node that the verdict names is one of the cluster's.
fn names_node(verdict: &Verdict, nodes: u8) -> bool
    ensures { result ≡ named_among verdict.now nodes }
{
    match verdict {
        Verdict::Moved(node) => node.number() < nodes,
        Verdict::Plain | Verdict::TryAgain | Verdict::ClusterDown => true,
    }
}
