//! Why a session refuses.

use resp_wire::WireFault;
use thiserror::Error;

/// Why a session refused. After `Wire` and `NotRequest` it reads no more, and answers the same.
#[derive(Clone, Copy, Debug, Drop, Error)]
pub enum SessionFault {
    /// Nothing has changed.
    #[error("out of memory")]
    NoMemory,
    #[error("the bytes are no value")]
    Wire(WireFault),
    /// A value that is no request, or a request past the last part that can be numbered.
    #[error("the value is no request")]
    NotRequest,
}
