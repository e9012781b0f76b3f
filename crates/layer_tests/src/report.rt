//! `report`: the report of a run, made by hand, and its audit.

use cluster_world::{Entry, RunReport, audit};
use layer_rows::{CallFault, Line, Word, keep, put};
use std::alloc::Global;

/// A call of the report.
pub fn call(report: &mut RunReport, line: &mut Line) {
    match line.call() {
        "new" => put(report, none(line.alloc), line),
        "part" => keep_read(&mut report.parts, line),
        "end" => keep_read(&mut report.ends, line),
        "entry" => keep_entry(&mut report.history, line),
        "audit" => line.show(audit(line.alloc, report)),
        _ => line.refuse(CallFault::NoSuchCall),
    }
}

/// A report of no run.
pub fn none(alloc: Global) -> RunReport {
    RunReport {
        parts: Vec::new(alloc),
        ends: Vec::new(alloc),
        history: Vec::new(alloc),
        replies: Vec::new(alloc),
        skipped: 0,
        stopped: Vec::new(alloc),
    }
}

/// `part TICKET WORDS..` or `end TICKET END`
fn keep_read<T: Word + Drop>(kept: &mut Vec<T>, line: &mut Line) {
    if let Some(read) = line.read::<T>() {
        keep(kept, read, line);
    }
}

/// `entry TICKET REPLY WORDS..`
fn keep_entry(history: &mut Vec<Entry>, line: &mut Line) {
    if let Some(((ticket, reply), part)) = line.read() {
        let entry = Entry {
            ticket,
            part,
            reply,
            moment: 1,
        };
        keep(history, entry, line);
    }
}
