//! When a drain ends.

ghost use Rattle.std.specs.Prelude.{◌↔◌, ◌-◌, ◌/◌, ◌≤◌, IsTrue};
ghost use Rattle.socket_proxy.specs.DrainEnd.{IsCut, IsOver};

/// Whether a run ends in which all clients came that were to come, or not all, this number of clients is left, and the drain is
/// cut, or not.
pub(crate) fn is_over(all_came: bool, clients: u64, cut: bool) -> bool
    ensures { IsTrue result ↔ IsOver all_came clients cut }
{
    (all_came && clients == 0) || cut
}

/// Whether a drain that began at this time, in milliseconds, and is given this number of seconds is cut now.
pub(crate) fn is_cut(began: Option<u64>, seconds: Option<u64>, now: u64) -> bool
    ensures { IsTrue result ↔ IsCut began seconds now }
{
    let Some(began) = began else {
        return false;
    };
    let Some(seconds) = seconds else {
        return false;
    };
    are_over(seconds, began, now)
}

/// Whether this number of seconds is over between two times, in milliseconds.
fn are_over(seconds: u64, began: u64, now: u64) -> bool
    ensures { IsTrue result ↔ (seconds ≤ (now - began) / 1000) }
{
    now.saturating_sub(began) / 1000 >= seconds
}
