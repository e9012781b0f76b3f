//! What a request asks that greets.

ghost use Rattle.std.specs.Prelude.{◌≡◌, ◌∷◌, []};
ghost use Rattle.client_greetings.specs.Greetings.{alone, client, client_words, command, config, greeting_by, greeting_of, hello, hello_with, is_name, is_printable, parameters, place_of, reply_mode, set_info, set_name, switch};

use key_split::{read_number, same_letters};
use resp_wire::Bytes;

/// A subcommand that takes a certain number of words.
#[derive(Clone, Copy, PartialEq, Eq)]
pub enum Subcommand {
    SetName,
    SetInfo,
    GetName,
    ClientId,
    NoEvict,
    NoTouch,
    CommandCount,
    ConfigGet,
}

/// What a request asks that greets.
#[derive(Clone, Copy, PartialEq, Eq)]
pub enum Greeting {
    /// HELLO, with protocol 2 or none.
    Hello,
    /// HELLO with a name for the client.
    HelloNamed,
    /// HELLO with another protocol than 2.
    NoProtocol,
    /// HELLO with a protocol that is no number.
    NotANumber,
    /// HELLO with an option that is not known.
    BadOption,
    /// CLIENT SETNAME.
    Named,
    /// CLIENT SETNAME with a name that has a space, or what does not print.
    BadName,
    /// CLIENT GETNAME.
    Name,
    /// CLIENT ID.
    Id,
    /// What a server would note, and this one need not.
    Noted,
    /// Neither ON nor OFF.
    Syntax,
    /// COMMAND, COMMAND DOCS, CONFIG GET: there is nothing to tell.
    Nothing,
    /// COMMAND COUNT.
    Zero,
    Info,
    /// A wrong number of words behind the subcommand.
    WrongCount(Subcommand),
}

impl Greeting {
    /// Where the word stands that is the client's name from now on, where there is one.
    pub fn name_at(self) -> Option<usize>
        ensures { result ≡ place_of self }
    {
        match self {
            Greeting::Named => Some(2),
            Greeting::HelloNamed => Some(3),
            _ => None,
        }
    }
}

/// What the words ask, where they greet.
pub fn greeting_of(words: &[Bytes]) -> Option<Greeting>
    ensures { result ≡ greeting_of words.now }
{
    match words {
        [] => None,
        [name, arguments @ ..] => greeting_by(name.as_slice(), arguments),
    }
}

fn greeting_by(name: &[u8], words: &[Bytes]) -> Option<Greeting>
    ensures { result ≡ greeting_by name.now words.now }
{
    if same_letters(name, b"HELLO") {
        Some(hello(words))
    } else if same_letters(name, b"CLIENT") {
        client_words(words)
    } else if same_letters(name, b"COMMAND") {
        command(words)
    } else if same_letters(name, b"CONFIG") {
        config(words)
    } else if same_letters(name, b"INFO") {
        Some(Greeting::Info)
    } else {
        None
    }
}

fn hello(words: &[Bytes]) -> Greeting
    ensures { result ≡ hello words.now }
{
    match words {
        [] => Greeting::Hello,
        [version, options @ ..] => hello_in(version.as_slice(), options),
    }
}

fn hello_in(version: &[u8], options: &[Bytes]) -> Greeting
    ensures { result ≡ hello (version.now ∷ options.now) }
{
    if version == b"2".as_slice() {
        hello_with(options)
    } else if read_number(version).is_some() {
        Greeting::NoProtocol
    } else {
        Greeting::NotANumber
    }
}

fn hello_with(options: &[Bytes]) -> Greeting
    ensures { result ≡ hello_with options.now }
{
    match options {
        [] => Greeting::Hello,
        [option, _] if same_letters(option.as_slice(), b"SETNAME") => Greeting::HelloNamed,
        _ => Greeting::BadOption,
    }
}

fn client_words(words: &[Bytes]) -> Option<Greeting>
    ensures { result ≡ client_words words.now }
{
    match words {
        [] => None,
        [word, arguments @ ..] => client(word.as_slice(), arguments),
    }
}

fn client(word: &[u8], words: &[Bytes]) -> Option<Greeting>
    ensures { result ≡ client word.now words.now }
{
    if same_letters(word, b"SETNAME") {
        Some(set_name(words))
    } else if same_letters(word, b"SETINFO") {
        Some(set_info(words))
    } else if same_letters(word, b"GETNAME") {
        Some(alone(Subcommand::GetName, Greeting::Name, words))
    } else if same_letters(word, b"ID") {
        Some(alone(Subcommand::ClientId, Greeting::Id, words))
    } else if same_letters(word, b"NO-EVICT") {
        Some(switch(Subcommand::NoEvict, words))
    } else if same_letters(word, b"NO-TOUCH") {
        Some(switch(Subcommand::NoTouch, words))
    } else if same_letters(word, b"REPLY") {
        reply_mode(words)
    } else {
        None
    }
}

fn set_name(words: &[Bytes]) -> Greeting
    ensures { result ≡ set_name words.now }
{
    match words {
        [name] => named(name.as_slice()),
        _ => Greeting::WrongCount(Subcommand::SetName),
    }
}

fn named(name: &[u8]) -> Greeting
    ensures { result ≡ set_name (name.now ∷ []) }
{
    if is_name(name) {
        Greeting::Named
    } else {
        Greeting::BadName
    }
}

fn is_name(name: &[u8]) -> bool
    ensures { result ≡ is_name name.now }
{
    name.iter().all(|byte| is_printable(*byte))
}

fn is_printable(byte: u8) -> bool
    ensures { result ≡ is_printable byte }
{
    byte >= 33 && byte <= 126
}

fn set_info(words: &[Bytes]) -> Greeting
    ensures { result ≡ set_info words.now }
{
    match words {
        [_, _] => Greeting::Noted,
        _ => Greeting::WrongCount(Subcommand::SetInfo),
    }
}

fn alone(subcommand: Subcommand, greeting: Greeting, words: &[Bytes]) -> Greeting
    ensures { result ≡ alone subcommand greeting words.now }
{
    match words {
        [] => greeting,
        _ => Greeting::WrongCount(subcommand),
    }
}

fn switch(subcommand: Subcommand, words: &[Bytes]) -> Greeting
    ensures { result ≡ switch subcommand words.now }
{
    match words {
        [word] => switched(word.as_slice()),
        _ => Greeting::WrongCount(subcommand),
    }
}

fn switched(word: &[u8]) -> Greeting
    ensures { result ≡ switch Subcommand.SetName (word.now ∷ []) }
{
    if same_letters(word, b"ON") || same_letters(word, b"OFF") {
        Greeting::Noted
    } else {
        Greeting::Syntax
    }
}

fn reply_mode(words: &[Bytes]) -> Option<Greeting>
    ensures { result ≡ reply_mode words.now }
{
    match words {
        [mode] if same_letters(mode.as_slice(), b"ON") => Some(Greeting::Noted),
        _ => None,
    }
}

fn command(words: &[Bytes]) -> Option<Greeting>
    ensures { result ≡ command words.now }
{
    match words {
        [] => Some(Greeting::Nothing),
        [word, arguments @ ..] => command_of(word.as_slice(), arguments),
    }
}

fn command_of(word: &[u8], words: &[Bytes]) -> Option<Greeting>
    ensures { result ≡ command (word.now ∷ words.now) }
{
    if same_letters(word, b"DOCS") {
        Some(Greeting::Nothing)
    } else if same_letters(word, b"COUNT") {
        Some(alone(Subcommand::CommandCount, Greeting::Zero, words))
    } else {
        None
    }
}

fn config(words: &[Bytes]) -> Option<Greeting>
    ensures { result ≡ config words.now }
{
    match words {
        [] => None,
        [word, words @ ..] => config_of(word.as_slice(), words),
    }
}

fn config_of(word: &[u8], words: &[Bytes]) -> Option<Greeting>
    ensures { result ≡ config (word.now ∷ words.now) }
{
    if same_letters(word, b"GET") {
        Some(parameters(words))
    } else {
        None
    }
}

fn parameters(words: &[Bytes]) -> Greeting
    ensures { result ≡ parameters words.now }
{
    match words {
        [] => Greeting::WrongCount(Subcommand::ConfigGet),
        _ => Greeting::Nothing,
    }
}
