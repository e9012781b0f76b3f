//! How the proxy names itself to the nodes.

ghost use Rattle.std.specs.Prelude.{◌≡◌, ◌++◌, ◌∷◌, [], IfOk, OnOk, codes};
ghost use Rattle.resp_wire.specs.Canonical.{canonical};
ghost use Rattle.resp_wire.specs.Data.{bulk};
ghost use Rattle.node_link.specs.Bytes.{spelled_words};

use resp_wire::{NoMemory, write_bulk_head};
use std::alloc::Global;
use std::io;
use std::io::ErrorKind;
use std::marker::Model;

/// A password at the nodes, with a user's name or without. It has no text of its own, so that no log and no fault shows it.
#[derive(Drop)]
pub struct Credentials {
    /// AUTH, as it goes over the wire.
    request: Vec<u8>,
    password: Vec<u8>,
}

impl Model for Credentials {
    ghost use Rattle.std.specs.Prelude.{List, ℕ};

    ghost Value = { List ℕ };

    ghost view = { λ credentials. credentials.request.items };
}

impl Credentials {
    /// The password of the nodes' default user.
    pub fn of_password(alloc: Global, password: &[u8]) -> Result<Credentials, NoMemory>
        ensures { IfOk result (λ credentials. credentials ≡ spelled_words (codes "AUTH" ∷ password.now ∷ [])) }
    {
        let mut request = Vec::new(alloc);
        request.extend_from_slice(b"*2\r\n$4\r\nAUTH\r\n")?;
        Credentials::with_password(alloc, request, password)
    }

    /// A user's password.
    pub fn of_user(alloc: Global, user: &[u8], password: &[u8]) -> Result<Credentials, NoMemory>
        ensures { IfOk result (λ credentials. credentials ≡ spelled_words (codes "AUTH" ∷ user.now ∷ password.now ∷ [])) }
    {
        let mut request = Vec::new(alloc);
        request.extend_from_slice(b"*3\r\n$4\r\nAUTH\r\n")?;
        push_word(&mut request, user)?;
        Credentials::with_password(alloc, request, password)
    }

    /// The credentials that are said by this request, once the password stands behind it.
    fn with_password(
        alloc: Global,
        mut request: Vec<u8>,
        password: &[u8],
    ) -> Result<Credentials, NoMemory>
        ensures { IfOk result (λ credentials. credentials ≡ request.items ++ canonical (bulk password.now)) }
    {
        push_word(&mut request, password)?;
        let mut copy = Vec::new(alloc);
        copy.extend_from_slice(password)?;
        Ok(Credentials {
            request,
            password: copy,
        })
    }

    /// What a node is told before anything else.
    pub(crate) fn request(&self) -> &[u8]
        ensures { result.now ≡ self.now }
    {
        self.request.as_slice()
    }

    /// The fault of a node that refused, in its own words. A node may repeat between quotation marks what it was sent, so
    /// these and what follows are left out; and so are all words where the password stands among them.
    pub(crate) fn refusal(&self, words: &[u8]) -> io::Error {
        let end = words.iter().position(|byte| is_quotation(*byte));
        let shown = words.get(..end.unwrap_or(words.len())).unwrap_or(words);
        if contains(shown, self.password.as_slice()) {
            return refused("AUTH was refused, in words that hold the password");
        }
        refused(std::str::from_utf8(shown).unwrap_or("AUTH was refused"))
    }
}

fn refused(words: &str) -> io::Error {
    io::Error::new(ErrorKind::PermissionDenied, words)
}

fn is_quotation(byte: u8) -> bool {
    matches!(byte, b'\'' | b'"' | b'`')
}

/// Whether the part stands somewhere in the bytes.
fn contains(bytes: &[u8], part: &[u8]) -> bool {
    for start in 0..bytes.len() {
        if bytes[start..].starts_with(part) {
            return true;
        }
    }
    false
}

/// Appends a word of a request.
fn push_word(request: &mut Vec<u8>, word: &[u8]) -> Result<(), NoMemory>
    ensures { OnOk result (request.new.items ≡ request.old.items ++ canonical (bulk word.now)) }
{
    write_bulk_head(request, word.len())?;
    request.extend_from_slice(word)?;
    Ok(request.extend_from_slice(b"\r\n")?)
}
