//! A page for operators over HTTP: the figures in Prometheus' text format, the health, and a way to ask for the end of the run. No
//! socket, no thread, no clock.
//!
//! ```text
//! let mut connection = PageConnection::new(alloc, keys, now);
//! connection.receive(bytes)?;
//! let mut service = PageService { alloc, figures: &figures, drain: None };
//! connection.answer(&mut service);                     // service.drain: after how many seconds what is left is to be cut
//! let count = socket.write(connection.output())?;
//! connection.sent(count, now);
//! ```
//!
//! Promise: exact pages. What `write_page` appends is `page_text` of `specs/Page.antt`, whose families and samples are spelled
//! as `specs/Text.antt` says. Which path, query and method get which answer is said by `specs/Answers.antt`, when the proxy is well by
//! `specs/Health.antt`, when a connection is closed by `specs/Connection.antt`; what goes over it is promised by `http_server`.
//! What the figures are is not promised: the caller counts.
#![tactic(auto)]

mod answers;
mod connection;
mod families;
mod figures;
mod health;
mod page;
mod text;
mod times;

pub use answers::PageService;
pub use connection::{MOST_CONNECTIONS, PageConnection};
pub use figures::{CarrierFigures, Figures, NodeFigures, ProcessFigures, WorkerFigures};
pub use page::write_page;
pub use times::{BUCKETS, Times, bucket_of};
