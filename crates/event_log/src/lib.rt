//! The log for operators: one event a line, as words `key=value`, and what the threads of the proxy report in it.
//!
//! ```text
//! let stream = ErrorStream::new(rt.stderr().as_fd().try_clone_to_owned().ok());
//! let line = Line::new(alloc, time.as_bytes(), "warn", "link_lost")?.pair("node", b"10.0.0.5:6379")?;
//! stream.write_line(line);
//!
//! let report = ThreadReport::new(alloc)?;
//! report.count(Figure::Clients, 1);
//! report.tell(Event::ClientRefused(error));
//! ```
//!
//! Each thread has a `ThreadReport`, of events and figures. One `Reporter` writes the lines of all of them.
//!
//! Promise: exact lines. What a line holds after each call is said by `specs/Line.antt`: visible ASCII and spaces alone, so
//! that no value ends a line or begins another. `RateLimit` lets one line an interval pass and counts the others
//! (`specs/Rate.antt`). Of what is reported nothing is promised: an event may be lost. What the system does with a line is not
//! promised; a stream that takes nothing now loses it.
#![tactic(auto)]

mod event;
mod event_writer;
mod figures;
mod journal;
mod line;
mod node_board;
mod node_places;
mod rate_limit;
mod reporter;
mod stream;
mod thread_report;
mod time;
mod time_counts;
mod value;

pub use event::{Event, NodeName, SlotsTold};
pub use figures::Figure;
pub use line::Line;
pub use node_board::NodeStanding;
pub use rate_limit::RateLimit;
pub use reporter::Reporter;
pub use stream::ErrorStream;
pub use thread_report::ThreadReport;
pub use time::utc_text;
pub use time_counts::{TIME_BUCKETS, TimeSums};
