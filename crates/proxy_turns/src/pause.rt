//! How long a refused command waits before its next post.

ghost use Rattle.std.specs.Prelude.{◌≡◌};
ghost use Rattle.proxy_turns.specs.Pause.{doubling_pause, pause_after};

/// How many redirects are followed at once.
const QUICK_REDIRECTS: u8 = 3;
/// How long a command waits that was refused so often: none, once, and so on, in milliseconds.
const FIRST_PAUSES: [u64; 10] = [0, 0, 1, 2, 4, 8, 16, 32, 64, 128];
/// How long one waits that was refused more often, in milliseconds.
const LONGEST_PAUSE: u64 = 250;

/// How long a command waits, in milliseconds, that was refused so often, the last time by MOVED or ASK or otherwise.
pub(crate) fn pause_millis(refusals: u8, is_redirected: bool) -> u64
    ensures { result ≡ pause_after refusals is_redirected }
{
    if is_redirected && refusals <= QUICK_REDIRECTS {
        return 0;
    }
    growing_pause(refusals)
}

fn growing_pause(refusals: u8) -> u64
    ensures { result ≡ doubling_pause refusals }
{
    match FIRST_PAUSES.get(usize::from(refusals)) {
        Some(pause) => *pause,
        None => LONGEST_PAUSE,
    }
}
