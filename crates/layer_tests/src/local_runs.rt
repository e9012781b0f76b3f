//! Runs of scripts.

use crate::gates::{Meeting, Open};
use crate::runs::{Counts, Move, ran, run, scripts_of};
use cluster_world::RunReport;
use proxy_runtime::Host;
use proxy_turns::Gate;
use resp_wire::Bytes;
use std::alloc::Global;
use std::process::Abort;
use std::test::Fail;

const SET_A: &[u8] = b"*3\r\n$3\r\nSET\r\n$1\r\na\r\n$1\r\n1\r\n";

const SET_B: &[u8] = b"*3\r\n$3\r\nSET\r\n$1\r\nb\r\n$1\r\nx\r\n";

const SET_A_INCR_A: &[u8] =
    b"*3\r\n$3\r\nSET\r\n$1\r\na\r\n$1\r\n1\r\n*2\r\n$4\r\nINCR\r\n$1\r\na\r\n";

const SET_B_MGET: &[u8] =
    b"*3\r\n$3\r\nSET\r\n$1\r\nb\r\n$1\r\nx\r\n*3\r\n$4\r\nMGET\r\n$1\r\nb\r\n$1\r\nc\r\n";

const SET_A_GET_A: &[u8] =
    b"*3\r\n$3\r\nSET\r\n$1\r\na\r\n$1\r\n1\r\n*2\r\n$3\r\nGET\r\n$1\r\na\r\n";

/// Ten parts on keys of slots that move (a, b, c), and of one whose move is called back (d).
const BUSY: &[u8] =
    b"*3\r\n$3\r\nSET\r\n$1\r\na\r\n$1\r\n5\r\n*2\r\n$4\r\nINCR\r\n$1\r\na\r\n*3\r\n$6\r\nAPPEND\r\n$1\r\nb\r\n$1\r\nx\r\n*2\r\n$4\r\nINCR\r\n$1\r\nc\r\n*4\r\n$4\r\nMGET\r\n$1\r\na\r\n$1\r\nb\r\n$1\r\nc\r\n*2\r\n$3\r\nGET\r\n$1\r\nd\r\n*5\r\n$4\r\nMSET\r\n$4\r\n{a}y\r\n$1\r\n1\r\n$4\r\n{a}z\r\n$1\r\n2\r\n*3\r\n$4\r\nMGET\r\n$4\r\n{a}y\r\n$4\r\n{a}z\r\n";

/// How often a busy client sends these.
const ROUNDS: u32 = 50;

/// Five ranges, the fourth being the slot that moved to node 0.
const LISTED: &[u8] =
    b"*5\r\n*3\r\n:0\r\n:5460\r\n*3\r\n$9\r\n127.0.0.1\r\n:7001\r\n$2\r\nn0\r\n*3\r\n:5461\r\n:10922\r\n*3\r\n$9\r\n127.0.0.1\r\n:7002\r\n$2\r\nn1\r\n*3\r\n:10923\r\n:15494\r\n*3\r\n$9\r\n127.0.0.1\r\n:7003\r\n$2\r\nn2\r\n*3\r\n:15495\r\n:15495\r\n*3\r\n$9\r\n127.0.0.1\r\n:7001\r\n$2\r\nn0\r\n*3\r\n:15496\r\n:16383\r\n*3\r\n$9\r\n127.0.0.1\r\n:7003\r\n$2\r\nn2\r\n";

/// What came of two clients' scripts with two workers.
fn run_two<R: Host, G: Gate + Sync>(
    rt: &R,
    texts: [&[u8]; 2],
    moves: &[Move],
    gate: &G,
    calls: Option<u64>,
    listing: &mut Vec<u8>,
) -> Result<Option<Counts>, Fail> {
    let scripts = scripts_of(rt.alloc(), &texts)?;
    run(rt, &scripts, moves, 2, gate, calls, listing)
}

// Each of two workers waits for the other, and answers one command.
fn meet<R: Host>(rt: &R) -> Result<bool, Fail> {
    let mut listing = Vec::new(rt.alloc());
    let came = run_two(rt, [SET_A, SET_B], &[], &Meeting::new(), None, &mut listing)?;
    Ok(came == Some(Counts::all_answered(2)))
}

#[test]
fn two_workers_wait_for_each_other(rt: HostRuntime) -> Result<(), Fail> {
    assert!(rt; meet(&rt)?);
    Ok(())
}

// Two clients while a slot moves, which is listed at node 0 at the end.
fn move_a_slot<R: Host>(rt: &R) -> Result<bool, Fail> {
    let mut listing = Vec::new(rt.alloc());
    let moves = [Move::Moved(15495, 0)];
    let came = run_two(
        rt,
        [SET_A_INCR_A, SET_B_MGET],
        &moves,
        &Open,
        None,
        &mut listing,
    )?;
    Ok(came == Some(Counts::all_answered(5)) && listing.as_slice() == LISTED)
}

#[test]
fn two_clients_while_a_slot_moves(rt: HostRuntime) -> Result<(), Fail> {
    for _ in 0..20u8 {
        assert!(rt; move_a_slot(&rt)?);
    }
    Ok(())
}

const SET_INCR_GET_A: &[u8] =
    b"*3\r\n$3\r\nSET\r\n$1\r\na\r\n$1\r\n1\r\n*2\r\n$4\r\nINCR\r\n$1\r\na\r\n*2\r\n$3\r\nGET\r\n$1\r\na\r\n";

// One client's SET, INCR and GET of one key, in one piece. The first post goes to the seed, which answers MOVED.
fn ask_in_one_piece<R: Host>(rt: &R) -> Result<bool, Fail> {
    let scripts = scripts_of(rt.alloc(), &[SET_INCR_GET_A])?;
    let Some((report, state)) = ran(rt, &scripts, &[], 1, &Open, None)? else {
        return Ok(false);
    };
    drop(state);
    let is_told = report.history.len() == 3 && has_heard(&report, b"+OK\r\n:2\r\n$1\r\n2\r\n");
    drop(report);
    Ok(is_told)
}

#[test]
fn set_incr_get_in_one_piece(rt: HostRuntime) -> Result<(), Fail> {
    assert!(rt; ask_in_one_piece(&rt)?);
    Ok(())
}

/// What two requests are answered where their connection fails.
const LOST_TWICE: &[u8] =
    b"-ERR proxy: connection lost, outcome unknown\r\n-ERR proxy: connection lost, outcome unknown\r\n";

// One client, over connections that pass no call on: nothing is executed.
fn lose_all<R: Host>(rt: &R) -> Result<bool, Fail> {
    let scripts = scripts_of(rt.alloc(), &[SET_A_GET_A])?;
    let Some((report, state)) = ran(rt, &scripts, &[], 1, &Open, Some(0))? else {
        return Ok(false);
    };
    drop(state);
    let is_lost = is_lost(&report);
    drop(report);
    Ok(is_lost)
}

fn is_lost(report: &RunReport) -> bool {
    report.history.is_empty() && has_heard(report, LOST_TWICE)
}

// Whether there was one client, and it heard these bytes.
fn has_heard(report: &RunReport, bytes: &[u8]) -> bool {
    match report.replies.as_slice() {
        [replies] => replies.as_slice() == bytes,
        _ => false,
    }
}

#[test]
fn connections_that_pass_no_call_on(rt: HostRuntime) -> Result<(), Fail> {
    assert!(rt; lose_all(&rt)?);
    Ok(())
}

// Two clients while a slot moves, over connections that pass `calls` calls on: each of the five parts ended.
fn fail_after<R: Host>(rt: &R, calls: u64) -> Result<bool, Fail> {
    let mut listing = Vec::new(rt.alloc());
    let moves = [Move::Moved(15495, 0)];
    match run_two(
        rt,
        [SET_A_INCR_A, SET_B_MGET],
        &moves,
        &Open,
        Some(calls),
        &mut listing,
    )? {
        Some(counts) => Ok(have_ended(counts)),
        None => Ok(false),
    }
}

// Whether all five parts ended.
fn have_ended(counts: Counts) -> bool {
    counts.stopped == 0 && matches!(counts.answered.checked_add(counts.unanswered), Some(5))
}

#[test]
fn connections_that_fail_after_some_calls(rt: HostRuntime) -> Result<(), Fail> {
    for calls in 0..=64u64 {
        assert!(rt; fail_after(&rt, calls)?);
    }
    Ok(())
}

#[test]
fn connections_that_fail_after_twelve_calls(rt: HostRuntime) -> Result<(), Fail> {
    assert!(rt; fail_after(&rt, 12)?);
    Ok(())
}

// Whether both parts of a client ended while a move was called back. Between Forget and Stay the two nodes send a command
// back and forth, so that it may be given up; and where the target got the key first the move can't be called back, so that
// two steps are skipped.
fn is_recalled(counts: Counts) -> bool {
    counts.stopped == 0
        && matches!(counts.skipped, 0 | 2)
        && matches!(
            (counts.answered, counts.unanswered),
            (2, 0) | (1, 1) | (0, 2)
        )
}

// One client while a move is called back, and one that asks nothing.
fn recall_a_slot<R: Host>(rt: &R) -> Result<bool, Fail> {
    let mut listing = Vec::new(rt.alloc());
    let moves = [Move::Recalled(15495, 0)];
    match run_two(rt, [SET_A_GET_A, b""], &moves, &Open, None, &mut listing)? {
        Some(counts) => Ok(is_recalled(counts)),
        None => Ok(false),
    }
}

#[test]
fn one_client_while_a_move_is_called_back(rt: HostRuntime) -> Result<(), Fail> {
    for _ in 0..20u8 {
        assert!(rt; recall_a_slot(&rt)?);
    }
    Ok(())
}

fn busy_clients(alloc: Global) -> Result<Vec<Bytes>, Fail> {
    let mut text = Vec::new(alloc);
    for _ in 0..ROUNDS {
        text.extend_from_slice(BUSY)?;
    }
    let mut scripts = Vec::new(alloc);
    for _ in 0..20u8 {
        scripts.push(Bytes::from_slice(alloc, &text)?)?;
    }
    Ok(scripts)
}

// Twenty busy clients while three slots move and one move is called back, of a slot that is only read, so that no step need
// be skipped.
fn crowd<R: Host>(rt: &R) -> Result<bool, Fail> {
    let scripts = busy_clients(rt.alloc())?;
    let moves = [
        Move::Moved(15495, 0),
        Move::Moved(3300, 1),
        Move::Recalled(11298, 0),
        Move::Moved(7365, 2),
    ];
    let mut listing = Vec::new(rt.alloc());
    match run(rt, &scripts, &moves, 3, &Open, None, &mut listing)? {
        Some(counts) => Ok(is_crowd(counts)),
        None => Ok(false),
    }
}

fn is_crowd(counts: Counts) -> bool {
    counts.answered > 9_000 && counts.skipped == 0 && counts.stopped == 0
}

#[test]
fn twenty_clients_while_slots_move(rt: HostRuntime) -> Result<(), Fail> {
    for _ in 0..20u8 {
        assert!(rt; crowd(&rt)?);
    }
    Ok(())
}
