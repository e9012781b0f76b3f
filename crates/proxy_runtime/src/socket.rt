//! A connection of the system's that never blocks.

ghost use Rattle.std.specs.Prelude.{◌≡◌, ◌≤◌};

use mio::net::TcpStream;
use mio::{Interest, Registry, Token};
use node_link::{Flow, Stream};
use std::io;
use std::io::{ErrorKind, IoSlice, Read, Write};
use std::net::Shutdown;

/// A connection of the system's, whose calls do not wait and whose bytes go out without delay. Of what the other end
/// gives or takes nothing is known but the counts.
#[derive(Drop)]
pub struct Socket {
    stream: TcpStream,
    failures: u64,
    /// The other end sends no more.
    ended: bool,
    /// Why a call failed last, where the system said so.
    reason: Option<io::Error>,
}

impl Socket {
    ghost use Rattle.std.specs.Prelude.{IfOk};

    /// The connection, which already does not block.
    pub fn new(stream: TcpStream) -> io::Result<Socket>
        ensures { IfOk result (λ socket. socket.failures ≡ 0) }
    {
        stream.set_nodelay(true)?;
        Ok(Socket {
            stream,
            failures: 0,
            ended: false,
            reason: None,
        })
    }

    /// Has a poll report under the token when bytes can be read or written.
    pub fn watch(&mut self, registry: &Registry, token: Token) -> io::Result<()>
        ensures { self.new.failures ≡ self.old.failures }
    {
        registry.register(
            &mut self.stream,
            token,
            Interest::READABLE | Interest::WRITABLE,
        )
    }

    /// Whether the other end sends no more, as far as reads have shown.
    pub fn has_ended(&self) -> bool
        ensures { result ≡ self.now.ended }
    {
        self.ended
    }

    /// Why a call failed last, where the system said so.
    pub fn reason(&self) -> Option<io::Error> {
        self.reason
    }

    /// Sends no more: the other end reads what was written, and then an end.
    pub fn end_sending(&self) {
        let _ = self.stream.shutdown(Shutdown::Write);
    }

    /// Ends the connection both ways, as far as the system goes along.
    pub fn shut(&self) {
        let _ = self.stream.shutdown(Shutdown::Both);
    }
}

fn is_wait(error: &io::Error) -> bool {
    matches!(error.kind(), ErrorKind::WouldBlock | ErrorKind::Interrupted)
}

impl Stream for Socket {
    ghost failures = { λ socket. socket.failures };

    // The system does not tell which bytes the other end got or gave.
    ghost moved = { λ _ _ _ _. Unit {0} };

    ghost still = { λ _. tt };

    ghost joined = { λ _ _ _ _ _ _ _ _ _. tt };

    fn read(&mut self, buffer: &mut [u8]) -> Flow {
        match self.stream.read(buffer) {
            Ok(0) => {
                self.ended = true;
                self.fail()
            }
            Ok(count) => Flow::Bytes(count),
            Err(error) if is_wait(&error) => Flow::Nothing,
            Err(error) => self.fail_for(error),
        }
    }

    fn write(&mut self, first: &[u8], second: &[u8]) -> Flow {
        match self.write_both(first, second) {
            Ok(0) => self.fail(),
            Ok(count) => Flow::Bytes(count),
            Err(error) if is_wait(&error) => Flow::Nothing,
            Err(error) => self.fail_for(error),
        }
    }
}

impl Socket {
    ghost use Rattle.node_link.specs.Port.{Rose};
    ghost use Rattle.std.specs.Prelude.{◌++◌};
    ghost use Rattle.std.specs.Io.{WritesAtMost};
    ghost use Rattle.node_link.specs.declared.stream.Flow.TheVariants as flow;

    /// Offers both slices to the system, by one call.
    fn write_both(&mut self, first: &[u8], second: &[u8]) -> io::Result<usize>
        ensures bound { WritesAtMost result (first.now ++ second.now) }
        ensures kept { self.new.failures ≡ self.old.failures }
    {
        if second.is_empty() {
            return self.stream.write(first);
        }
        self.stream
            .write_vectored(&[IoSlice::new(first), IoSlice::new(second)])
    }

    /// Counts one failure more: for a caller that gives the connection up, as after a timeout.
    pub fn fail(&mut self) -> Flow
        ensures gone { result ≡ flow.Gone }
        ensures rose { Rose self.old.failures self.new.failures }
        ensures count { self.old.failures ≤ self.new.failures }
    {
        self.failures = self.failures.saturating_add(1);
        Flow::Gone
    }

    /// Counts one failure more, for the system's reason.
    fn fail_for(&mut self, error: io::Error) -> Flow
        ensures gone { result ≡ flow.Gone }
        ensures rose { Rose self.old.failures self.new.failures }
        ensures count { self.old.failures ≤ self.new.failures }
    {
        self.reason = Some(error);
        self.fail()
    }
}
