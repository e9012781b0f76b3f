//! Addresses in the words of the program.

ghost use Rattle.std.specs.Prelude.{◌≡◌, None, Some, MatchOption, IsTrue, true, false};
ghost use Rattle.std.specs.List.{before_last, after_last, list_any};
ghost use Rattle.resp_wire.specs.Text.{is_one_line as one_line};
ghost use Rattle.program_words.specs.Asked.{address_in, is_colon};

use crate::number::port_of;
use resp_wire::is_one_line;
use std::fmt;

/// A host and a port of it.
#[derive(Clone, Copy, Debug)]
pub struct Address<'a> {
    pub host: &'a str,
    pub port: u16,
    pub ghost one_line: { IsTrue (one_line host.now) },
}

impl fmt::Display for Address<'_> {
    fn fmt<W: fmt::Write>(&self, f: &mut fmt::Formatter<W>) -> fmt::Result {
        write!(f, "{}:{}", self.host, self.port)
    }
}

/// The address that a HOST:PORT names. The cut is at the last colon, the host is not empty and has no CR or LF.
pub fn address_of(text: &str) -> Option<Address<'_>>
    ensures { MatchOption result (address_in text.now ≡ None)
        (λ a. address_in text.now ≡ Some (record { host = a.host.now; port = a.port })) }
{
    let (host, port) = split_at_last_colon(text)?;
    let port = port_of(port)?;
    if host.is_empty() || !is_one_line(host.as_bytes()) {
        return None;
    }
    Some(Address { host, port })
}

/// What stands before the last colon, and behind it.
fn split_at_last_colon(text: &str) -> Option<(&str, &str)>
    ensures { MatchOption result (list_any is_colon text.now ≡ false)
        (λ parts. (list_any is_colon text.now ≡ true) × (parts.0.now ≡ before_last is_colon text.now)
        × (parts.1.now ≡ after_last is_colon text.now)) }
{
    text.rsplit_once(':')
}
