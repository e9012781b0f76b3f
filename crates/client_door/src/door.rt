//! The door in front of a session.

ghost use Rattle.std.specs.Prelude.{◌≡◌, ◌∷◌, ◌++◌, [], None};
ghost use Rattle.resp_wire.specs.FirstValue.{front};
ghost use Rattle.client_door.specs.Answers.{state_after};
ghost use Rattle.client_door.specs.AtDoor.{Reads, door_limits};

use crate::answer::{Answer, answer_to};
use crate::password::ClientPassword;
use resp_wire::{ByteQueue, Limits, NoMemory, Reader, WireFault};
use std::alloc::Global;
use std::marker::Model;

/// The most bytes of a word.
const MOST_BYTES: usize = 16_384;

/// The most words of a request.
const MOST_WORDS: usize = 10;

/// The most bytes of the line that tells how long a word is, or how many there are.
const MOST_LINE: usize = 64;

/// Who may pass.
#[derive(Clone, Copy, PartialEq, Eq)]
pub enum DoorState {
    /// The password is wanted.
    Shut,
    /// It was said: what comes next is the session's.
    Open,
    /// The connection is to be closed once all is sent.
    Over,
}

/// What stands in front of a client's session, until the client has said the password.
#[derive(Drop)]
pub struct Door {
    reader: Reader,
    unsent: ByteQueue,
    state: DoorState,
}

impl Model for Door {
    ghost use Rattle.client_door.specs.AtDoor.{DoorModel};

    ghost Value = { DoorModel };

    ghost view = { λ door. record { unread = door.reader.unread; unsent = door.unsent; state = door.state } };

    ghost use Rattle.std.specs.Prelude.{◌≡◌, None};
    ghost use Rattle.client_door.specs.AtDoor.{door_limits};
    ghost use Rattle.client_door.specs.declared.door.DoorState.TheVariants.{Shut};

    ghost invariant = { λ door. (door.reader.bounds ≡ door_limits) × (door.state ≡ Shut → door.reader.fault ≡ None) };
}

impl Door {
    ghost use Rattle.std.specs.Prelude.{◌≤◌, IfOk, OnOk, OnErr, MatchResult, drop, length};
    ghost use Rattle.client_door.specs.AtDoor.{taken, door_after, new_door};

    /// The door of a client that has said nothing.
    pub fn new(alloc: Global) -> Door
        ensures { result ≡ new_door }
    {
        Door {
            reader: Reader::new(alloc, limits()),
            unsent: ByteQueue::new(alloc),
            state: DoorState::Shut,
        }
    }

    /// Takes bytes, as long as it is shut, and gives those that it left.
    pub fn take<'a>(
        &mut self,
        password: &ClientPassword,
        bytes: &'a [u8],
    ) -> Result<&'a [u8], NoMemory>
        ensures takes { MatchResult result (λ left. taken password.now self.old bytes.now ≡ (self.new, left.now)) (λ _. self.new.state ≡ DoorState.Over) }
        ensures within { IfOk result (λ left. length left.now ≤ length bytes.now) }
    {
        let mut rest = bytes;
        while let [byte, later @ ..] = rest {
            if self.state != DoorState::Shut {
                return Ok(rest);
            }
            self.take_byte(password, *byte)?;
            rest = later;
        }
        Ok(rest)
    }

    fn take_byte(&mut self, password: &ClientPassword, byte: u8) -> Result<(), NoMemory>
        requires { self.old.state ≡ DoorState.Shut }
        ensures ok { OnOk result (self.new ≡ door_after password.now self.old byte) }
        ensures err { OnErr result (self.new.state ≡ DoorState.Over) }
    {
        let answered = match read_byte(&mut self.reader, password, byte) {
            Ok(answer) => answer,
            Err(refused) => {
                self.state = DoorState::Over;
                return Err(refused);
            }
        };
        let pushed = self.unsent.push(answered.bytes());
        self.state = if pushed.is_ok() {
            answered.state()
        } else {
            DoorState::Over
        };
        pushed
    }

    pub fn state(&self) -> DoorState
        ensures { result ≡ self.now.state }
    {
        self.state
    }

    /// What is to be sent to the client.
    pub fn unsent(&self) -> &[u8]
        ensures { result.now ≡ self.now.unsent }
    {
        self.unsent.as_slice()
    }

    /// So many bytes were sent.
    pub fn sent(&mut self, count: usize)
        requires { count ≤ length self.old.unsent }
        ensures { self.new ≡ record self.old { unsent = drop count self.old.unsent } }
    {
        self.unsent.skip(count);
    }
}

/// Redis's limits for clients that have not said the password.
fn limits() -> Limits
    ensures { result ≡ door_limits }
{
    match Limits::new(MOST_BYTES, MOST_WORDS, 1, MOST_LINE) {
        Some(limits) => limits,
        None => unreachable!(),
    }
}

/// Reads one byte more, and gives what is answered: nothing as long as no request is whole.
fn read_byte(reader: &mut Reader, password: &ClientPassword, byte: u8) -> Result<Answer, NoMemory>
    requires bounds { reader.old.bounds ≡ door_limits }
    requires fault { reader.old.fault ≡ None }
    ensures bounds { reader.new.bounds ≡ door_limits }
    ensures reads { Reads password.now (reader.old.unread ++ byte ∷ []) result reader.new }
{
    if reader.feed(&[byte]).is_err() {
        return Err(NoMemory);
    }
    match reader.next() {
        Ok(Some(value)) => {
            let answer = answer_to(password, &value);
            drop(value);
            Ok(answer)
        }
        Ok(None) => Ok(Answer::Nothing),
        Err(WireFault::NoMemory) => Err(NoMemory),
        Err(_) => Ok(Answer::NotRequest),
    }
}

impl Answer {
    /// Who may pass behind the answer.
    fn state(self) -> DoorState
        ensures { result ≡ state_after self }
    {
        match self {
            Answer::Welcome => DoorState::Open,
            Answer::Goodbye => DoorState::Over,
            Answer::NotRequest => DoorState::Over,
            Answer::NoAuth => DoorState::Shut,
            Answer::WrongPassword | Answer::WrongCount | Answer::Syntax | Answer::Nothing => {
                DoorState::Shut
            }
        }
    }
}
