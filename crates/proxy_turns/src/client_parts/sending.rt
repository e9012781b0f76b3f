//! What a client sends: parts are handed out, and their commands are posted.

ghost use Rattle.std.specs.Prelude.{◌≡◌, [], ℕ, Ok, false, true};

use super::ClientParts;
use crate::client_limits::{MAX_RUN, MAX_SENT};
use crate::port::ClientPort;
use crate::uplink::Uplink;
use proxy_lanes::Naming;
use resp_wire::NoMemory;

impl<C: ClientPort + Drop> ClientParts<C> {
    ghost use Rattle.session_order.specs.Turn.{MayPost};
    ghost use Rattle.proxy_turns.specs.ClientRest.{BeginsNone, IfStill, MayBeHeld, PostsNone, SendsNone};
    ghost use Rattle.proxy_turns.specs.ClientTurn.{at, BeginsCommands, DropsCommands, PostsCommands, SendsCommands};

    /// Hands out some parts and posts their commands, while the lane takes them.
    pub(super) fn send<J: Naming>(
        &mut self,
        uplink: &mut Uplink<J>,
        is_crowded: bool,
    ) -> Result<bool, NoMemory>
        ensures sends { SendsCommands C.moves (at self.old uplink.old) result (at self.new uplink.new) }
        ensures none { IfStill result (SendsNone self.old self.new uplink.new.outlet) }
    {
        for sent in 0..MAX_SENT {
            let moved = self.send_next(uplink, is_crowded)?;
            if !moved {
                return Ok(sent > 0);
            }
        }
        Ok(true)
    }

    // Posts the commands that wait, or those of the next part whose turn it is and of the parts behind it. A client that is gone begins
    // no more.
    fn send_next<J: Naming>(
        &mut self,
        uplink: &mut Uplink<J>,
        is_crowded: bool,
    ) -> Result<bool, NoMemory>
        ensures sends { SendsCommands C.moves (at self.old uplink.old) result (at self.new uplink.new) }
        ensures none { IfStill result (SendsNone self.old self.new uplink.new.outlet) }
    {
        if self.gone {
            return Ok(self.drop_fresh());
        }
        let begun = self.begin_commands(is_crowded)?;
        let posted = self.post_fresh(uplink)?;
        Ok(begun | posted)
    }

    // Hands out the next part whose turn it is, and those that may go behind it.
    fn begin_commands(&mut self, is_crowded: bool) -> Result<bool, NoMemory>
        requires { self.old.gone ≡ false }
        ensures begins { BeginsCommands C.moves self.old result self.new }
        ensures gone { self.new.gone ≡ self.old.gone }
        ensures none { IfStill result (BeginsNone self.old self.new) }
    {
        let first = self.begin_first(is_crowded)?;
        if !first {
            return Ok(false);
        }
        for _ in 1..MAX_RUN {
            let followed = self.begin_follower(is_crowded)?;
            if !followed {
                return Ok(true);
            }
        }
        Ok(true)
    }

    // Hands out the next part whose turn it is.
    fn begin_first(&mut self, is_crowded: bool) -> Result<bool, NoMemory>
        requires { self.old.gone ≡ false }
        ensures begins { BeginsCommands C.moves self.old result self.new }
        ensures gone { self.new.gone ≡ self.old.gone }
        ensures none { IfStill result (BeginsNone self.old self.new) }
    {
        if self.commands.has_fresh() || self.holds_next(is_crowded) {
            return Ok(false);
        }
        let begun = self.commands.begin(&mut self.session)?;
        if begun {
            self.replies.begin();
        }
        Ok(begun)
    }

    // Hands out the part that may go out behind the last command that waits.
    fn begin_follower(&mut self, is_crowded: bool) -> Result<bool, NoMemory>
        requires { self.old.gone ≡ false }
        ensures begins { BeginsCommands C.moves self.old result self.new }
        ensures gone { self.new.gone ≡ self.old.gone }
    {
        if !self.commands.takes_more() || self.holds_follower(is_crowded) {
            return Ok(false);
        }
        let followed = self.commands.follow(&mut self.session)?;
        if followed {
            self.replies.begin();
        }
        Ok(followed)
    }

    // Whether the next part whose turn it is waits until replies to earlier ones were drained.
    fn holds_next(&self, is_crowded: bool) -> bool
        ensures { result ≡ true → (i : ℕ) → MayPost self.now.session.stages i → MayBeHeld self.now.session i }
    {
        let Some(place) = self.session.next_place() else {
            return false;
        };
        self.holds(place, is_crowded)
    }

    // Whether no part may go out behind the last command that waits, or the one that may waits until replies to earlier ones were drained.
    fn holds_follower(&self, is_crowded: bool) -> bool {
        let Some(last) = self.commands.last_fresh() else {
            return true;
        };
        let Some(place) = self.session.follower_place(last) else {
            return true;
        };
        self.holds(place, is_crowded)
    }

    // Whether the part at this place waits until replies to earlier ones were drained. Where too much is held for all clients
    // together the fewest are begun.
    fn holds(&self, place: u64, is_crowded: bool) -> bool
        ensures { result ≡ true → MayBeHeld self.now.session place }
    {
        place >= self.replies.parts_at_once(is_crowded)
            && place >= self.session.parts_of_oldest() as u64
    }

    // Drops the commands of a client that is gone before their first post.
    fn drop_fresh(&mut self) -> bool
        ensures drops { DropsCommands C.moves self.old (Ok result) self.new }
        ensures none { result ≡ false → self.old.gone ≡ true → (self.new ≡ self.old) × (self.new.commands.fresh ≡ []) }
    {
        if !self.gone {
            return false;
        }
        self.commands.drop_fresh()
    }

    fn post_fresh<J: Naming>(&mut self, uplink: &mut Uplink<J>) -> Result<bool, NoMemory>
        requires { self.old.gone ≡ false }
        ensures posts { PostsCommands C.moves (at self.old uplink.old) result (at self.new uplink.new) }
        ensures none { IfStill result (PostsNone self.old self.new uplink.new.outlet) }
    {
        self.commands.post_fresh(uplink)
    }
}
