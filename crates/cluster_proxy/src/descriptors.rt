//! How many files and connections the process may have open.

use libc::types::rlimit;
use libc::{RLIMIT_NOFILE, getrlimit};

/// How many descriptors the process may have at once; `None` where the system does not tell.
pub fn descriptor_limit() -> Option<u64> {
    let mut limit = rlimit {
        rlim_cur: 0,
        rlim_max: 0,
    };
    getrlimit(RLIMIT_NOFILE, &mut limit);
    (limit.rlim_cur > 0).then_some(limit.rlim_cur)
}
