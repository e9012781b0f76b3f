//! The door in a client's connection, where clients have to say a password.

ghost use Rattle.std.specs.Prelude.{◌≡◌, ◌++◌, length, IfOk};
ghost use Rattle.client_door.specs.declared.door.DoorState.TheVariants.{Open};
ghost use Rattle.socket_proxy.specs.Doorways.{BytesOnlyIf, IsWithin};

use client_door::{ClientPassword, Door, DoorState};
use node_link::{Flow, Stream};
use proxy_runtime::PolledSocket;
use resp_wire::NoMemory;
use std::alloc::Global;
use std::sync::Arc;

/// The most bytes that are read at once of a client that has not said the password.
const PIECE: usize = 4096;

/// What stands between a client's socket and its session.
#[derive(Drop)]
pub(crate) struct Doorway {
    door: Door,
    password: Arc<ClientPassword, Global>,
}

impl Doorway {
    pub(crate) fn new(alloc: Global, password: Arc<ClientPassword, Global>) -> Doorway {
        Doorway {
            door: Door::new(alloc),
            password,
        }
    }

    /// Whether the client has said the password, and was told so.
    pub(crate) fn is_passed(&self) -> bool {
        self.door.state() == DoorState::Open && self.is_silent()
    }

    /// Whether the connection is to be closed.
    fn is_over(&self) -> bool {
        self.door.state() == DoorState::Over && self.is_silent()
    }

    /// Whether nothing waits to be sent.
    pub(crate) fn is_silent(&self) -> bool {
        self.door.unsent().is_empty()
    }

    /// Reads what stands behind the password to the front of the buffer. What stands before is answered.
    pub(crate) fn read(
        &mut self,
        socket: &mut PolledSocket,
        buffer: &mut [u8],
    ) -> Result<Flow, NoMemory>
        ensures within { IfOk result (λ flow. IsWithin flow (length buffer.new)) }
        ensures passed { IfOk result (λ flow. BytesOnlyIf (self.new.door.state ≡ Open) flow) }
        ensures length { length buffer.new ≡ length buffer.old }
    {
        if self.send(socket) == Flow::Gone || self.is_over() {
            return Ok(Flow::Gone);
        }
        match self.door.state() {
            DoorState::Open => Ok(socket.read(buffer)),
            DoorState::Shut if self.is_silent() => self.listen(socket, buffer),
            _ => Ok(Flow::Nothing),
        }
    }

    /// Writes behind what waits to be sent.
    pub(crate) fn write(&mut self, socket: &mut PolledSocket, first: &[u8], second: &[u8]) -> Flow
        ensures { IsWithin result (length (first.now ++ second.now)) }
    {
        if self.send(socket) == Flow::Gone {
            return Flow::Gone;
        }
        if !self.is_silent() {
            return Flow::Nothing;
        }
        socket.write(first, second)
    }

    /// Sends what waits.
    fn send(&mut self, socket: &mut PolledSocket) -> Flow {
        if self.is_silent() {
            return Flow::Nothing;
        }
        let flow = socket.write(self.door.unsent(), &[]);
        if let Flow::Bytes(count) = flow {
            self.door.sent(count);
        }
        flow
    }

    /// Reads a piece, and answers what it asks. What is left of it is the session's, where the door has opened.
    fn listen(&mut self, socket: &mut PolledSocket, buffer: &mut [u8]) -> Result<Flow, NoMemory>
        ensures within { IfOk result (λ flow. IsWithin flow (length buffer.new)) }
        ensures passed { IfOk result (λ flow. BytesOnlyIf (self.new.door.state ≡ Open) flow) }
        ensures length { length buffer.new ≡ length buffer.old }
    {
        let most = buffer.len().min(PIECE);
        let flow = socket.read(&mut buffer[..most]);
        let Flow::Bytes(count) = flow else {
            return Ok(flow);
        };
        let left = self.door.take(&self.password, &buffer[..count])?.len();
        if self.send(socket) == Flow::Gone || self.is_over() {
            return Ok(Flow::Gone);
        }
        if left == 0 || self.door.state() != DoorState::Open {
            return Ok(Flow::Nothing);
        }
        buffer.copy_within(count - left..count, 0);
        Ok(Flow::Bytes(left))
    }
}
