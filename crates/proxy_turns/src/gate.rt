//! Who lets a worker go on.

ghost use Rattle.std.specs.Prelude.{ℕ, Bool, List, OnOk, Option, ⊤};

use resp_wire::NoMemory;

/// Bytes of replies that wait or are under way for all clients of one worker, where a gate says nothing else.
pub const MOST_HELD: usize = 32 * 1024 * 1024;

/// Asked before each turn of a worker and once after the last, and told of turns that moved nothing.
pub trait Gate {
    /// It answered so to the worker of the first number, of whose parts the second had ended.
    ghost says: { Self → ℕ → ℕ → Bool → Type 0 } = { λ _ _ _ _. ⊤ };

    /// It was told that a turn moved nothing.
    ghost rests: { Self → Type 0 } = { λ _. ⊤ };

    /// It told this time, or that there is none.
    ghost tells: { Self → Option ℕ → Type 0 } = { λ _ _. ⊤ };

    /// It named these clients.
    ghost names: { Self → List ℕ → Type 0 } = { λ _ _. ⊤ };

    /// It was told that the first of the commands that wait is due then, or that none waits.
    ghost waits: { Self → Option ℕ → Type 0 } = { λ _ _. ⊤ };

    /// Whether the worker goes on. `answered` counts the parts that have ended so far.
    fn pass(&self, worker: u16, answered: u64) -> bool
        ensures asked { says self.now worker answered result };

    /// Puts into `news`, in place of what it holds, the numbers of the clients whose port may give bytes, or be gone, and of whom
    /// this was not told yet. Asked in each turn of the worker, before clients have theirs: one that is watched
    /// (`ClientPort::is_watched`), and for whom there is nothing else to do, has no turn until it is named here. After NoMemory the
    /// next call names them.
    fn take_news(&self, news: &mut Vec<u32>) -> Result<(), NoMemory>
        ensures named { OnOk result (names self.now news.new.items) };

    /// How many bytes of replies may wait or be under way for the worker's clients together. Past it, each client has its oldest
    /// request under way, and few parts behind it. Asked before each turn.
    fn most_held(&self) -> usize {
        MOST_HELD
    }

    /// The count of batches that the worker has posted so far. Told after each turn that was not its last.
    fn posted(&self, _count: u64) {}

    /// What time it is, in milliseconds since some moment. Where there is no time, refused commands do not wait.
    fn time(&self) -> Option<u64>
        ensures told { tells self.now result };

    /// When the first of the commands that wait is to be posted again, by `time`. Told before `idle`.
    fn next_due(&self, time: Option<u64>)
        ensures waits { waits self.now time };

    /// The last turn moved nothing.
    fn idle(&self)
        ensures rested { rests self.now };
}
