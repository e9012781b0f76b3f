//! In which order the clients of a worker have their turns.

ghost use Rattle.std.specs.Prelude.{◌≤◌};

/// Whose turn comes first. Where the lane takes no more, those that found no room in it are the first of the next turn.
#[derive(Clone, Copy, Drop)]
pub(crate) struct Round {
    first: usize,
}

impl Round {
    pub(crate) fn new() -> Round {
        Round { first: 0 }
    }

    /// The place of the one of `count` clients whose turn comes first.
    pub(crate) fn first(self, count: usize) -> usize
        ensures { result ≤ count }
    {
        if self.first < count { self.first } else { 0 }
    }

    /// The client at this place had its turn. Where it posted something, the next turn begins behind it.
    pub(crate) fn had_turn(&mut self, place: usize, has_posted: bool) {
        if has_posted {
            self.first = place.saturating_add(1);
        }
    }
}
