//! The first line of the log, and the last.

use crate::descriptors::descriptor_limit;
use event_log::{ErrorStream, Line, utc_text};
use program_words::{Address, Serving, VERSION};
use proxy_runtime::WireRunFault;
use std::alloc::{AllocError, Global};
use std::fmt::Display;
use std::time::Clock;

/// Logs that clients are served, and with what.
pub fn log_start<R: Clock>(rt: &R, alloc: Global, serving: &Serving<'_>, log: &ErrorStream) {
    if let Ok(line) = start_line(rt, alloc, serving) {
        log.write_line(line);
    }
}

fn start_line<R: Clock>(rt: &R, alloc: Global, serving: &Serving<'_>) -> Result<Line, AllocError> {
    let line = new_line(rt, alloc, "info", "started")?;
    let line = line.pair("version", VERSION.as_bytes())?;
    let line = with_pair(alloc, line, "listen", &serving.listen)?;
    let seeds = seeds_text(alloc, serving.seeds.as_slice())?;
    let line = line.pair("seed", seeds.as_bytes())?;
    let line = with_pair(alloc, line, "workers", &serving.workers)?;
    let line = with_pair(alloc, line, "descriptors", &descriptor_limit().unwrap_or(0))?;
    match &serving.admin {
        Some(at) => with_pair(alloc, line, "admin", at),
        None => Ok(line),
    }
}

/// The seeds, with commas between them.
fn seeds_text(alloc: Global, seeds: &[Address<'_>]) -> Result<String, AllocError> {
    let mut text = String::new(alloc);
    for seed in seeds {
        if !text.is_empty() {
            text.push_str(",")?;
        }
        let shown = format!(in alloc; "{seed}")?;
        text.push_str(shown.as_str())?;
    }
    Ok(text)
}

/// A line of this moment.
fn new_line<R: Clock>(rt: &R, alloc: Global, level: &str, event: &str) -> Result<Line, AllocError> {
    let time = utc_text(rt, alloc)?;
    Line::new(alloc, time.as_bytes(), level, event)
}

/// The line with what is shown of the value.
fn with_pair<T: Display>(
    alloc: Global,
    line: Line,
    key: &str,
    value: &T,
) -> Result<Line, AllocError> {
    let shown = format!(in alloc; "{value}")?;
    line.pair(key, shown.as_bytes())
}

/// Logs why the run ended.
pub fn log_end<R: Clock>(
    rt: &R,
    alloc: Global,
    ended: &Result<(), WireRunFault>,
    log: &ErrorStream,
) {
    if let Ok(line) = end_line(rt, alloc, ended) {
        log.write_line(line);
    }
}

fn end_line<R: Clock>(
    rt: &R,
    alloc: Global,
    ended: &Result<(), WireRunFault>,
) -> Result<Line, AllocError> {
    match ended {
        Ok(()) => new_line(rt, alloc, "info", "ended"),
        Err(fault) => {
            let line = new_line(rt, alloc, "warn", "ended")?;
            with_pair(alloc, line, "reason", fault)
        }
    }
}
