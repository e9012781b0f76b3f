//! How much is done or kept for one client.

/// Bytes pulled since all was answered, from which on no more are pulled.
pub(crate) const MAX_ASKED: usize = 256 * 1024;
/// Bytes that wait to be pushed, from which on no more are drained.
pub(crate) const MAX_UNPUSHED: usize = 64 * 1024;
/// Bytes that are drained in one turn, the last of them to the end of its reply.
pub(crate) const MAX_DRAINED: usize = 64 * 1024;
/// Bytes of replies that may be under way or wait, from which on no part is begun but of the oldest request.
pub(crate) const MAX_REPLIES: usize = 256 * 1024;
/// A buffer that is larger is given back where it is empty.
pub(crate) const KEPT: usize = 256 * 1024;
/// How many requests are read in one turn.
pub(crate) const MAX_READS: usize = 1024;
/// How many runs are posted in one turn: others find room in the lane in the same turn.
pub(crate) const MAX_SENT: usize = 64;
/// The most commands that go out together.
pub(crate) const MAX_RUN: usize = 64;
/// Bytes of the words of those that go out together, from which on no more go with them.
pub(crate) const MAX_RUN_WORDS: usize = 64 * 1024;
/// A list of commands with room for more is given back where it is empty.
pub(crate) const KEPT_COMMANDS: usize = 4;
