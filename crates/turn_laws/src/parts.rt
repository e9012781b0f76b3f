//! Laws of the parts that the laws of whole systems are made of: what one step is, and what one definition says. Each is the contract of
//! a function that does nothing.

ghost use Rattle.turn_laws.specs.ByteWires.{ItemsAreReadBack};
ghost use Rattle.turn_laws.specs.ClientOutput.{PartingOwesNothing};
ghost use Rattle.turn_laws.specs.ClientSees.{ClientsSeeTheirOwn};
ghost use Rattle.turn_laws.specs.Handing.{HandedOnce, TakenAsHanded};
ghost use Rattle.turn_laws.specs.LogOutput.{EndsDecide};
ghost use Rattle.turn_laws.specs.LogHeadline.{EachExecutionArrived, NoneIsExecutedTwice};
ghost use Rattle.turn_laws.specs.LogTelling.{LogsTellHeadlines, LogsTellOfOurs};
ghost use Rattle.turn_laws.specs.ServedRuns.{FirstIsServed, RunsAreInOrder};
ghost use Rattle.turn_laws.specs.SharedLog.{LogHeadlineFollows};
ghost use Rattle.turn_laws.specs.SingleSteps.{EarlierOnesEnd, ImportsWait, NoneIsLeft, NumbersAreNew, PostedRunsFit, PostedRunsLead, RefusalsComeBack, TablesReadAlike};
ghost use Rattle.turn_laws.specs.Stories.{LostYetExecuted};
ghost use Rattle.turn_laws.specs.WrittenRuns.{RunsAreWrittenWhole};

use proxy_lanes::Naming;

/// A run is written as one item, behind ASKING where its command asks: so a node serves it whole.
pub fn runs_are_written_whole()
    ensures { RunsAreWrittenWhole }
{}

/// A node serves what stands first on a connection, with one value for each command. A run that it executes stands in the log in the
/// run's order.
pub fn nodes_serve_in_order()
    ensures first { FirstIsServed }
    ensures runs { RunsAreInOrder }
{}

/// A node that reads within the largest limits, and finds an item, has read the first that was written, whole, but for its tickets.
pub fn items_are_read_back()
    ensures { ItemsAreReadBack }
{}

/// A run that a worker posts is no longer than the machine's may be, and goes to a node of the cluster.
pub fn posted_runs_fit<C: Drop, J: Naming>()
    ensures fit { PostedRunsFit C J }
    ensures lead { PostedRunsLead C J }
{}

/// The commands of a run that is refused are of the worker that posted it, which is told of each.
pub fn refusals_come_back()
    ensures { RefusalsComeBack }
{}

/// Of one client's commands for one slot, an earlier one that is not awaited has ended.
pub fn earlier_ones_end()
    ensures { EarlierOnesEnd }
{}

/// What the carrier reads in a value by its own table is what is read in it by the list of all nodes.
pub fn tables_read_alike<C: Drop, J: Naming>()
    ensures { TablesReadAlike C J }
{}

/// A connection that is opened has a number that no other has.
pub fn numbers_are_new<C: Drop, J: Naming>()
    ensures { NumbersAreNew C J }
{}

/// Where the requests of a broken connection are thrown away, none is left to be served.
pub fn none_is_left<C: Drop, J: Naming>()
    ensures { NoneIsLeft C J }
{}

/// Where a slot may be imported at a node, a run that the node serves next behind ASKING has no command for it.
pub fn imports_wait<C: Drop, J: Naming>()
    ensures { ImportsWait C J }
{}

/// A client that is handed to a worker stands in its lane once, and those that the worker takes are the next of those that were handed to
/// it.
pub fn clients_are_handed_once<C: Drop, J: Naming>()
    ensures once { HandedOnce C J }
    ensures taken { TakenAsHanded C J }
{}

/// A client sees the bytes that come from it and go to it, and none of another's.
pub fn clients_see_their_own()
    ensures { ClientsSeeTheirOwn }
{}

/// A log that tells of a world what its events were, each at its moment, has the world's headline, beside others too.
pub fn logs_tell_headlines()
    ensures alone { LogsTellHeadlines }
    ensures shared { LogsTellOfOurs }
{}

/// The headline of a log in which nobody else acts is that beside others, where all that was executed is ours. What it asks of an
/// execution to be ours, each is.
pub fn each_execution_is_ours()
    ensures follows { LogHeadlineFollows }
    ensures once { NoneIsExecutedTwice }
    ensures arrived { EachExecutionArrived }
{}

/// A client that parts is owed nothing more: what its worker's clients are written is what they were written before.
pub fn parting_owes_nothing<C: Drop, J: Naming>()
    ensures { PartingOwesNothing C J }
{}

/// Of the answers that a log shows, only the end of each part decides what a client is written.
pub fn ends_decide<C: Drop, J: Naming>()
    ensures { EndsDecide C J }
{}

/// A command that was answered with a connection fault may have been executed.
pub fn lost_yet_executed()
    ensures { LostYetExecuted }
{}
