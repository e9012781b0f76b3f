//! Where reading goes on.

ghost use Rattle.std.specs.Prelude.{◌≡◌, [], ◌∷◌, IfSome};
ghost use Rattle.resp_wire.specs.Places.{IsPlace, Finds, IsPlainTo, Waits};

use crate::counts::Counts;
use crate::fault::WireFault;
use crate::limits::Limits;
use crate::line::unfinished;
use crate::scan::scan;

/// How far bytes were read that come in pieces.
#[derive(Drop)]
pub(crate) struct Place {
    /// Where the next item begins.
    position: usize,
    /// How many bytes of its line, its first byte not counted, are known to be neither CR nor LF.
    plain: usize,
    /// The arrays that are open there.
    counts: Counts,
}

impl Place {
    /// Nothing was read.
    pub(crate) fn start() -> Place
        ensures { result ≡ record { position = 0; plain = 0; counts = 1 ∷ [] } }
    {
        Place {
            position: 0,
            plain: 0,
            counts: Counts::new(),
        }
    }

    /// Whether nothing was read, or too little to be worth keeping.
    pub(crate) fn is_start(&self) -> bool {
        self.position == 0 && self.plain == 0
    }

    /// Where the next item begins: behind the value at the front, once that is whole.
    pub(crate) fn end(&self) -> usize
        ensures { result ≡ self.now.position }
    {
        self.position
    }

    /// Reads on as far as the bytes go: whether the value at the front is whole. It then ends at the position.
    pub(crate) fn read_on(&mut self, limits: &Limits, bytes: &[u8]) -> Result<bool, WireFault>
        requires { IsPlace limits.now bytes.now self.old }
        ensures place { IsPlace limits.now bytes.now self.new }
        ensures found { Finds limits.now bytes.now self.new.position result }
    {
        let rest = &bytes[self.position..];
        if let Some(plain) = waiting_line(limits, &self.counts, rest, self.plain) {
            self.plain = plain;
            return Ok(false);
        }
        let (found, rest) = scan(limits, &mut self.counts, rest);
        self.position = bytes.len() - rest.len();
        self.plain = 0;
        found
    }
}

/// Where an item is to come and its line is not all there: how many bytes of the line are plain, the first `plain` of
/// them known to be so.
fn waiting_line(limits: &Limits, counts: &Counts, bytes: &[u8], plain: usize) -> Option<usize>
    requires { IsPlainTo bytes.now plain }
    ensures { IfSome result (λ plain. IsPlainTo bytes.now plain × Waits limits.now counts.now bytes.now) }
{
    if !counts.wants_item() {
        return None;
    }
    unfinished(bytes, limits.line(), plain)
}
