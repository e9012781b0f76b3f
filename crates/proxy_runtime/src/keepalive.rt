//! How a connection is noticed whose other end vanished without a word.

use libc::net::{
    IPPROTO_TCP, SO_KEEPALIVE, SOL_SOCKET, TCP_KEEPCNT, TCP_KEEPIDLE, TCP_KEEPINTVL, setsockopt,
};
use mio::net::TcpStream;
use std::os::fd::AsRawFd;

/// Seconds in which nothing came, after which the system asks whether the other end is there.
const IDLE_SECONDS: i32 = 60;
/// Seconds after a question without an answer, until it asks again.
const INTERVAL_SECONDS: i32 = 10;
/// Questions without an answer, after which the connection fails.
const QUESTIONS: i32 = 3;

/// Has the system ask the other end. Where it refuses a time it keeps its own.
pub(crate) fn keep_alive(stream: &TcpStream) {
    let descriptor = stream.as_raw_fd();
    let [on, idle, interval, questions] = [1, IDLE_SECONDS, INTERVAL_SECONDS, QUESTIONS].map(
        option_value,
    );
    unsafe {
        let _ = setsockopt(descriptor, SOL_SOCKET, SO_KEEPALIVE, &on, 4);
        let _ = setsockopt(descriptor, IPPROTO_TCP, TCP_KEEPIDLE, &idle, 4);
        let _ = setsockopt(descriptor, IPPROTO_TCP, TCP_KEEPINTVL, &interval, 4);
        let _ = setsockopt(descriptor, IPPROTO_TCP, TCP_KEEPCNT, &questions, 4);
    }
}

/// The number as the system takes it.
fn option_value(number: i32) -> [u8; 16] {
    let mut value = [0; 16];
    value[..4].copy_from_slice(&number.to_ne_bytes());
    value
}
