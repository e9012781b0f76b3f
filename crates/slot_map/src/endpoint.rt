//! Where a node listens: a host and a port.

ghost use Rattle.std.specs.Prelude.{◌≡◌, IsTrue, IfOk};
ghost use Rattle.resp_wire.specs.Text.{is_one_line};
ghost use Rattle.slot_map.specs.Table.{same_endpoint};

use resp_wire::{Bytes, NoMemory};
use std::alloc::Global;
use std::marker::Model;

/// An endpoint as it is asked for.
#[derive(Default, Drop)]
pub(crate) struct Address<'a> {
    pub host: &'a [u8],
    pub port: u16,
}

impl<'a> Model for Address<'a> {
    ghost use Rattle.slot_map.specs.Table.{Endpoint};

    ghost Value = { Endpoint };

    ghost view = { λ at. record { host = at.host.now; port = at.port } };
}

impl<'a> Address<'a> {
    pub(crate) fn is(&self, host: &[u8], port: u16) -> bool
        ensures { result ≡ same_endpoint self.now (record { host = host.now; port = port }) }
    {
        self.host == host && self.port == port
    }

    pub(crate) fn is_that_of(&self, other: &Address<'a>) -> bool
        ensures { result ≡ same_endpoint self.now other.now }
    {
        self.is(other.host, other.port)
    }
}

/// An endpoint that is kept.
#[derive(Drop)]
pub(crate) struct Listener {
    host: Bytes,
    port: u16,
}

impl Model for Listener {
    ghost use Rattle.slot_map.specs.Table.{Endpoint};

    ghost Value = { Endpoint };

    ghost view = { λ at. record { host = at.host; port = at.port } };

    ghost use Rattle.std.specs.Prelude.{IsTrue};
    ghost use Rattle.resp_wire.specs.Text.{is_one_line};

    ghost invariant = { λ at. IsTrue (is_one_line at.host) };
}

impl Listener {
    pub(crate) fn new(alloc: Global, host: &[u8], port: u16) -> Result<Self, NoMemory>
        requires { IsTrue (is_one_line host.now) }
        ensures { IfOk result (λ at. at ≡ record { host = host.now; port = port }) }
    {
        let host = Bytes::from_slice(alloc, host)?;
        Ok(Listener { host, port })
    }

    pub(crate) fn host(&self) -> &[u8]
        ensures value { result.now ≡ self.now.host }
        ensures one_line { IsTrue (is_one_line result.now) }
    {
        self.host.as_slice()
    }

    pub(crate) fn port(&self) -> u16
        ensures { result ≡ self.now.port }
    {
        self.port
    }

    /// Whether the node listens there.
    pub(crate) fn is_at(&self, at: &Address<'_>) -> bool
        ensures { result ≡ same_endpoint at.now self.now }
    {
        at.is(self.host.as_slice(), self.port)
    }
}
