//! The events of a script.

ghost use Rattle.std.specs.Prelude.{◌+◌, ◌^◌, ◌<◌, length};
ghost use Rattle.cluster_world.specs.Reading.{ReadsEvents};
ghost use Rattle.cluster_world.specs.Script.{lines_of};
ghost use Rattle.cluster_world.specs.Schedule as schedule;

use crate::event_line::event_of;
use crate::script::{LineRead, read_line};
use crate::script_fault::ScriptFault;
use std::alloc::Global;
use world_laws::Event;

/// The events that the lines say, of which the first has this number.
pub(crate) fn read_events(
    alloc: Global,
    workers: u16,
    first: u64,
    lines: &[u8],
) -> Result<Vec<Event>, ScriptFault>
    requires workers { 0 < workers }
    requires numbers { first + length lines.now < 2 ^ 64 }
    ensures { ReadsEvents (schedule.all_said (schedule.event_of workers) first (lines_of lines.now)) result }
{
    let mut events = Vec::new(alloc);
    let mut number = first;
    let mut rest = lines;
    while let Some(
        LineRead {
            words,
            rest: further,
        },
    ) = read_line(alloc, rest)?
    {
        let Some(words) = words else {
            return Err(ScriptFault::BadLine(number));
        };
        let Some(event) = event_of(alloc, workers, &words)? else {
            return Err(ScriptFault::BadLine(number));
        };
        events.push(event)?;
        number += 1;
        rest = further;
    }
    Ok(events)
}
