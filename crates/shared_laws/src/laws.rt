//! Laws over every schedule in which others act. Each is the contract of a function that does nothing.

ghost use Rattle.shared_laws.specs.Others.{AnyChange, KeysGo, ServeStaysAllowed, SharedEndsAreSound, TakeStaysAllowed, TrueAsks};
ghost use Rattle.shared_laws.specs.OthersAreRead.{OthersAreRead};
ghost use Rattle.shared_laws.specs.Proxies.{EachIsShared, EveryProxy};
ghost use Rattle.shared_laws.specs.Shared.{AloneIsShared};
ghost use Rattle.shared_laws.specs.SharedHeadline.{EverySharedSchedule, HeadlineFollows};

/// After every schedule in which others act, each of our commands that ended with a reply stands exactly once in one legal
/// history of all commands, ours and theirs.
pub fn every_shared_schedule()
    ensures { EverySharedSchedule }
{}

/// A schedule in which nobody else acts is one of these; and where each entry is ours, this headline is that of the machine alone.
pub fn alone_is_shared()
    ensures schedule { AloneIsShared }
    ensures headline { HeadlineFollows }
{}

/// What any schedule leaves in which others act is sound again: a proxy that is started anew can begin there.
pub fn ends_are_sound()
    ensures { SharedEndsAreSound }
{}

/// Several proxies before one cluster: what one does is a step of others to each other one, so the headline holds of each
/// proxy's commands, in one legal history of all.
pub fn every_proxy()
    ensures projection { EachIsShared }
    ensures headline { EveryProxy }
{}

/// Others can change keys of one slot at once in any way, where the node owns the slot; each key can go at any time from the node
/// that holds it; and an ASK is true for them where it is true for clients of a cluster without a proxy.
pub fn others_do_anything()
    ensures change { AnyChange }
    ensures goes { KeysGo }
    ensures asks { TrueAsks }
{}

/// Whatever others did, what comes down to a worker can be taken, and what a link has can be served.
pub fn nothing_gets_stuck()
    ensures take { TakeStaysAllowed }
    ensures serve { ServeStaysAllowed }
{}

/// The laws speak of something: others set a key, and our GET that waits is answered with it.
pub fn others_are_read()
    ensures { OthersAreRead }
{}
