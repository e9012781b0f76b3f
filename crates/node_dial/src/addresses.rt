//! The addresses of a node.

use crate::look_up::addresses_of;
use crate::look_ups::{Found, SharedLookUps, take_found};
use crate::place::put;
use std::alloc::Global;
use std::io;
use std::io::ErrorKind;
use std::net::{IpAddr, Net, SocketAddr};

/// The addresses of a node's host, found once, and which of them is dialled next.
#[derive(Drop)]
pub(crate) struct Addresses {
    alloc: Global,
    found: Vec<SocketAddr>,
    next: usize,
}

impl Addresses {
    /// The addresses of a host that was not looked up yet.
    pub(crate) fn new(alloc: Global) -> Addresses {
        Addresses {
            alloc,
            found: Vec::new(alloc),
            next: 0,
        }
    }

    /// Finds the addresses of this host, unless they are known. True where they are known then; a name may still be looked up.
    pub(crate) fn find<R: Net>(
        &mut self,
        rt: &R,
        look_ups: &SharedLookUps,
        host: &[u8],
        port: u16,
    ) -> io::Result<bool> {
        if !self.found.is_empty() {
            return Ok(true);
        }
        let Ok(host) = std::str::from_utf8(host) else {
            return Err(io::Error::new(ErrorKind::InvalidInput, "the host is no text"));
        };
        if host.parse::<IpAddr>().is_ok() {
            return self.keep(addresses_of(rt, self.alloc, host, port));
        }
        match take_found(look_ups, host, port) {
            Some(found) => self.keep(found),
            None => Ok(false),
        }
    }

    /// Keeps what was found. True where addresses were.
    fn keep(&mut self, found: Found) -> io::Result<bool> {
        put(&mut self.found, found?);
        Ok(true)
    }

    pub(crate) fn len(&self) -> usize {
        self.found.len()
    }

    /// The address that is dialled next.
    pub(crate) fn current(&self) -> Option<SocketAddr> {
        self.found.get(self.next).copied()
    }

    /// Goes on to the next address, and after the last to the first.
    pub(crate) fn advance(&mut self) {
        let next = self.next.saturating_add(1);
        self.next = if next < self.found.len() { next } else { 0 };
    }
}
