//! What writes the lines of events.

use crate::event::{EVENT_LIMITS, Event, NodeName, pair_shown};
use crate::journal::EVENTS_WAITING;
use crate::line::Line;
use crate::node_places::NodePlaces;
use crate::rate_limit::RateLimit;
use crate::stream::ErrorStream;
use crate::thread_report::ThreadReport;
use crate::time::utc_text;
use resp_wire::NoMemory;
use std::alloc::{AllocError, Global};
use std::time::Clock;

/// Milliseconds in which events of one kind and node are written at most once.
const EVENT_INTERVAL_MILLIS: u64 = 1_000;

/// Writes events to a stream, those of one kind and node not too often.
#[derive(Drop)]
pub(crate) struct EventWriter<'a> {
    alloc: Global,
    stream: &'a ErrorStream,
    limits: Vec<RateLimit>,
    nodes: NodePlaces,
    /// The names of the seeds.
    seeds: Vec<NodeName>,
}

impl<'a> EventWriter<'a> {
    pub(crate) fn new(
        alloc: Global,
        stream: &'a ErrorStream,
        seeds: Vec<NodeName>,
    ) -> Result<EventWriter<'a>, NoMemory> {
        let mut limits = Vec::with_capacity(alloc, EVENT_LIMITS)?;
        for _ in 0..EVENT_LIMITS {
            limits.push(RateLimit::new())?;
        }
        Ok(EventWriter {
            alloc,
            stream,
            limits,
            nodes: NodePlaces::new(alloc)?,
            seeds,
        })
    }

    /// Writes the events that wait in a thread. The time is in milliseconds.
    pub(crate) fn write_events<R: Clock>(&mut self, rt: &R, thread: &ThreadReport, now: u64) {
        for _ in 0..EVENTS_WAITING {
            let Some(event) = thread.take_event() else {
                return;
            };
            self.write_event(rt, &event, now);
        }
    }

    /// The place of the limit that counts events of this kind, and of this node where it is of one.
    fn limit_place(&mut self, event: &Event) -> usize {
        let node = match event.node() {
            Some(node) => self.nodes.place_of(node),
            None => 0,
        };
        event.limit_place(node)
    }

    fn write_event<R: Clock>(&mut self, rt: &R, event: &Event, now: u64) {
        let place = self.limit_place(event);
        let Some(limit) = self.limits.get_mut(place) else {
            return;
        };
        let Some(left_out) = limit.admit(now, EVENT_INTERVAL_MILLIS) else {
            return;
        };
        if let Ok(line) = self.event_line(rt, event, left_out) {
            self.stream.write_line(line);
        }
    }

    /// Whether the event is of a seed. Threads number the nodes each by itself, so an address tells it.
    fn is_of_seed(&self, event: &Event) -> bool {
        match event.node() {
            Some(node) => self.seeds.iter().any(|seed| seed.is_at_same(node)),
            None => false,
        }
    }

    fn event_line<R: Clock>(
        &self,
        rt: &R,
        event: &Event,
        left_out: u64,
    ) -> Result<Line, AllocError> {
        let time = utc_text(rt, self.alloc)?;
        let line = event.line(self.alloc, &time, self.is_of_seed(event))?;
        if left_out == 0 {
            return Ok(line);
        }
        pair_shown(self.alloc, line, "left_out", &left_out)
    }
}
