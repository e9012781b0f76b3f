//! Laws over every schedule. Each is the contract of a function that does nothing.

ghost use Rattle.std.specs.Prelude.{◌≡◌, List};
ghost use Rattle.world_laws.specs.Alone.{DoesAlone, PostsAlone, ServesAlone};
ghost use Rattle.world_laws.specs.Allowed.{LinksLeadToNodes, RunsHaveOneSlot, ServeIsAllowed, SizesStay, TakeIsAllowed};
ghost use Rattle.world_laws.specs.Bare.{NoKeyAtTwoNodes};
ghost use Rattle.world_laws.specs.Headline.{EachEntryArrived, EndsAreSound, EverySchedule, Headline, IsReached, NewIsSound, NoneIsExecutedTwice, NoneShareAMoment};
ghost use Rattle.world_laws.specs.RunOfTwo.{RunOfTwo};
ghost use Rattle.world_laws.specs.State.{WorldModel};
ghost use Rattle.world_laws.specs.World.{WorldStep, WorldRun};
ghost use Rattle.world_laws.specs.declared.event.Event.{Event};

/// After every schedule each command that ended with a reply stands exactly once in one legal history.
pub fn every_schedule()
    ensures { EverySchedule }
{}

/// A new cluster is sound, and holds nothing; and what any schedule leaves is sound again, so another proxy can begin there.
pub fn sound_starts()
    ensures new { NewIsSound }
    ensures ends { EndsAreSound }
{}

/// What the headline asks of an entry to be ours, each entry is where nobody else acts.
pub fn each_entry_is_ours()
    ensures moment { NoneShareAMoment }
    ensures arrived { EachEntryArrived }
    ensures once { NoneIsExecutedTwice }
{}

/// An event that is allowed has one next state.
pub fn one_next_state()
    ensures { (old : WorldModel) (event : Event) (a b : WorldModel) → WorldStep old event a → WorldStep old event b → a ≡ b }
{}

/// What some schedule leaves goes on to be that, and the headline holds of it.
pub fn reached_worlds()
    ensures goes_on { (w w' : WorldModel) (event : Event) → IsReached w → WorldStep w event w' → IsReached w' }
    ensures runs_on { (w w' : WorldModel) (events : List Event) → IsReached w → WorldRun w events w' → IsReached w' }
    ensures headline { (w : WorldModel) → IsReached w → Headline w }
{}

/// In a world that events reach, what comes down to a worker can be taken, and what a link has can be served.
pub fn nothing_is_stuck()
    ensures take { TakeIsAllowed }
    ensures serve { ServeIsAllowed }
{}

/// In a world that events reach, links lead to nodes that exist.
pub fn links_lead_to_nodes()
    ensures { LinksLeadToNodes }
{}

/// In a world that events reach, the commands of a run have one slot.
pub fn runs_have_one_slot()
    ensures { RunsHaveOneSlot }
{}

/// No event changes how many workers and nodes there are.
pub fn sizes_stay()
    ensures { SizesStay }
{}

/// At a cluster that is asked without a proxy no key is at two nodes, where each ASK that is followed is true.
pub fn no_key_at_two_nodes()
    ensures { NoKeyAtTwoNodes }
{}

/// A run of one is a command alone: it is posted and served as without runs.
pub fn run_of_one()
    ensures does { DoesAlone }
    ensures posts { PostsAlone }
    ensures serves { ServesAlone }
{}

/// A run of two can go the whole way: posted, carried, executed at once and in order, and answered.
pub fn run_of_two()
    ensures { RunOfTwo }
{}
