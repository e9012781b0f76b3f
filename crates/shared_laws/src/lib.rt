//! The proxy's machine beside other clients of its cluster: other proxies, scripts, keys that expire.
//!
//! ```text
//! laws::every_shared_schedule();
//! ```
//!
//! The promise is the headline of `world_laws` (`specs/Headline.antt`) for this proxy's own commands, in one legal history of
//! everybody's. `laws::every_shared_schedule` carries it. Which commands are this proxy's own says `specs/SharedHeadline.antt`; the
//! steps stand in `specs/Shared.antt`, several proxies before one cluster in `specs/Proxies.antt`.
#![tactic(auto)]

pub mod laws;
