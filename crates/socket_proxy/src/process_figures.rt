//! What the system tells of this process.

use admin_page::ProcessFigures;
use libc::net::{POLLNVAL, poll};
use libc::types::pollfd;
use std::fs::File;
use std::io::{Read, Seek, SeekFrom};

/// The line of the status file that has the memory that is resident, in KiB.
const RESIDENT: &[u8] = b"VmRSS:";

/// The most bytes of the status file that are read.
const STATUS_LENGTH: usize = 4096;

/// The descriptors that one call looks at.
const DESCRIPTORS_LOOKED_AT: usize = 64;

/// Descriptors from this number on are not looked for.
const MOST_DESCRIPTORS: u64 = 1_048_576;

/// What there is now: the clients, and what the system tells in its status file of this process and of the descriptors that
/// may be open.
pub(crate) fn process_figures(
    status: &mut Option<File>,
    clients: u64,
    allowed_descriptors: Option<u64>,
) -> ProcessFigures {
    ProcessFigures {
        clients,
        resident_bytes: resident_in(status),
        open_descriptors: open_of(allowed_descriptors),
        allowed_descriptors,
    }
}

fn resident_in(status: &mut Option<File>) -> Option<u64> {
    match status {
        Some(file) => resident_bytes(file),
        None => None,
    }
}

fn resident_bytes(file: &mut File) -> Option<u64> {
    let mut text = [0u8; STATUS_LENGTH];
    file.seek(SeekFrom::Start(0)).ok()?;
    let count = file.read(&mut text).ok()?;
    let line = line_of(text.get(..count)?)?;
    Some(number_in(line).saturating_mul(1024))
}

/// The line that begins with the name of the resident memory.
fn line_of(status: &[u8]) -> Option<&[u8]> {
    for line in status.split(|byte| *byte == b'\n') {
        if line.starts_with(RESIDENT) {
            return Some(line);
        }
    }
    None
}

/// The number that the digits of a line spell.
fn number_in(line: &[u8]) -> u64 {
    let mut number: u64 = 0;
    for byte in line {
        if byte.is_ascii_digit() {
            number = number
                .saturating_mul(10)
                .saturating_add(u64::from(byte.wrapping_sub(b'0')));
        }
    }
    number
}

/// How many descriptors are open.
fn open_of(allowed: Option<u64>) -> Option<u64> {
    let end = allowed?.min(MOST_DESCRIPTORS);
    let mut open: u64 = 0;
    for piece in 0..end.div_ceil(DESCRIPTORS_LOOKED_AT as u64) {
        let first = i32::try_from(piece.saturating_mul(DESCRIPTORS_LOOKED_AT as u64)).ok()?;
        open = open.saturating_add(open_from(first)?);
    }
    Some(open)
}

/// How many are open of the descriptors from this number on that one call looks at: of those that are not it says so.
fn open_from(first: i32) -> Option<u64> {
    let mut polled = [pollfd {
        fd: 0,
        events: 0,
        revents: 0,
    }; DESCRIPTORS_LOOKED_AT];
    let mut number = first;
    for entry in polled.iter_mut() {
        entry.fd = number;
        number = number.saturating_add(1);
    }
    if poll(&mut polled, 0) < 0 {
        return None;
    }
    let mut open: u64 = 0;
    for entry in polled.iter() {
        if entry.revents & POLLNVAL == 0 {
            open = open.saturating_add(1);
        }
    }
    Some(open)
}
