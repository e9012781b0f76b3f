//! The password that clients have to say.

ghost use Rattle.std.specs.Prelude.{◌≡◌, drop};
ghost use Rattle.std.specs.Str.{bytes_eq};
ghost use Rattle.client_door.specs.Comparing.{begins_with};

use std::marker::Model;

/// A password has at least so many bytes.
const LEAST: usize = 8;

/// The password that clients have to say. It has no text of its own, so that no log and no fault shows it.
#[derive(Drop)]
pub struct ClientPassword {
    bytes: Vec<u8>,
}

impl Model for ClientPassword {
    ghost use Rattle.std.specs.Prelude.{List, ℕ};

    ghost Value = { List ℕ };

    ghost view = { λ password. password.bytes.items };
}

impl ClientPassword {
    ghost use Rattle.std.specs.Prelude.{◌≤◌, SomeIff, length};

    /// None where there are fewer than eight bytes.
    pub fn new(bytes: Vec<u8>) -> Option<ClientPassword>
        ensures { SomeIff result (8 ≤ length bytes.items) bytes.items }
    {
        if bytes.len() < LEAST {
            return None;
        }
        Some(ClientPassword { bytes })
    }

    /// Whether these bytes are the password. All of them are looked at, wherever they differ.
    pub(crate) fn is(&self, given: &[u8]) -> bool
        ensures { result ≡ bytes_eq given.now self.now }
    {
        are_same(given, self.bytes.as_slice())
    }
}

/// Whether the bytes are the same, by a look at each of the first ones.
fn are_same(given: &[u8], wanted: &[u8]) -> bool
    ensures { result ≡ bytes_eq given.now wanted.now }
{
    let mut left = given;
    let mut rest = wanted;
    let mut same = true;
    while let [byte, later @ ..] = left {
        same &= begins_with(rest, *byte);
        rest = behind_first(rest);
        left = later;
    }
    same & rest.is_empty()
}

fn begins_with(bytes: &[u8], byte: u8) -> bool
    ensures { result ≡ begins_with bytes.now byte }
{
    !bytes.is_empty() && bytes[0] == byte
}

fn behind_first(bytes: &[u8]) -> &[u8]
    ensures { result.now ≡ drop 1 bytes.now }
{
    if bytes.is_empty() { bytes } else { &bytes[1..] }
}
