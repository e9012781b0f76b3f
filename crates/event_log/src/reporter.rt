//! What writes the log.

use crate::event::{NodeName, pair_shown};
use crate::event_writer::EventWriter;
use crate::figures::{FIGURE_NAMES, FIGURES};
use crate::line::Line;
use crate::stream::ErrorStream;
use crate::thread_report::ThreadReport;
use crate::time::utc_text;
use resp_wire::NoMemory;
use std::alloc::{AllocError, Global};
use std::sync::Arc;
use std::time::Clock;

/// Milliseconds in which figures are written at most once.
const FIGURES_INTERVAL_MILLIS: u64 = 60_000;

/// Writes the events and figures of all threads. A line for which there is no memory is left out.
#[derive(Drop)]
pub struct Reporter<'a> {
    alloc: Global,
    stream: &'a ErrorStream,
    threads: Vec<Arc<ThreadReport, Global>>,
    events: EventWriter<'a>,
    /// When figures are due.
    figures_due: u64,
    /// The figures that were written last.
    written: [u64; FIGURES],
}

impl<'a> Reporter<'a> {
    /// Writes what these threads report to the stream. The seeds have these names.
    pub fn new(
        alloc: Global,
        stream: &'a ErrorStream,
        threads: Vec<Arc<ThreadReport, Global>>,
        seeds: Vec<NodeName>,
    ) -> Result<Reporter<'a>, NoMemory> {
        Ok(Reporter {
            alloc,
            stream,
            threads,
            events: EventWriter::new(alloc, stream, seeds)?,
            figures_due: 0,
            written: [0; FIGURES],
        })
    }

    /// Writes what happened since, and the figures where they are due. The time is in milliseconds.
    pub fn report<R: Clock>(&mut self, rt: &R, now: u64) {
        for thread in &self.threads {
            self.events.write_events(rt, thread, now);
        }
        if self.figures_due <= now {
            self.write_figures(rt, now);
        }
    }

    /// Writes the figures, where they changed since they were written last.
    fn write_figures<R: Clock>(&mut self, rt: &R, now: u64) {
        self.figures_due = now.saturating_add(FIGURES_INTERVAL_MILLIS);
        let sums = sums_of(&self.threads);
        if sums == self.written {
            return;
        }
        self.written = sums;
        if let Ok(line) = self.figures_line(rt, &sums) {
            self.stream.write_line(line);
        }
    }

    fn figures_line<R: Clock>(&self, rt: &R, sums: &[u64; FIGURES]) -> Result<Line, AllocError> {
        let time = utc_text(rt, self.alloc)?;
        let mut line = Line::new(self.alloc, time.as_bytes(), "info", "figures")?;
        for (name, sum) in FIGURE_NAMES.iter().zip(sums.iter()) {
            line = pair_shown(self.alloc, line, name, sum)?;
        }
        Ok(line)
    }
}

/// The figures of all threads together.
fn sums_of(threads: &[Arc<ThreadReport, Global>]) -> [u64; FIGURES] {
    let mut sums = [0; FIGURES];
    for thread in threads {
        thread.add_to(&mut sums);
    }
    sums
}
