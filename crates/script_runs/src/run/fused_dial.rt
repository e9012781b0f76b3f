//! Connections that fail.

ghost use Rattle.std.specs.Prelude.{◌≡◌, IfOk};
ghost use Rattle.node_link.specs.Dialling.{OpenOutcome};
ghost use Rattle.script_runs.specs.FusedDial.{DialsUnder};

use node_link::{Dial, DialFault, Fuse};
use slot_map::NodeId;

/// Opens connections that each pass a given number of calls on, and then fail.
#[derive(Drop)]
pub(crate) struct FusedDial<D> {
    dial: D,
    calls: u64,
}

impl<D> FusedDial<D> {
    pub(crate) fn new(dial: D, calls: u64) -> FusedDial<D>
        ensures dial { result.dial ≡ dial }
        ensures calls { result.calls ≡ calls }
    {
        FusedDial { dial, calls }
    }
}

impl<D: Dial> Dial for FusedDial<D> {
    type Port = Fuse<D::Port>;

    ghost failures = { λ fused. D.failures fused.dial };

    ghost opens = { DialsUnder D.opens };

    ghost is_calm = { λ fused. D.is_calm fused.dial };

    fn seeks(&mut self) -> bool {
        self.dial.seeks()
    }

    fn unsent(&self) {
        self.dial.unsent();
    }

    fn open(&mut self, node: NodeId, host: &[u8], port: u16) -> Result<Fuse<D::Port>, DialFault>
        ensures open { OpenOutcome (DialsUnder D.opens) (record { host = host.now; port = port }) (D.failures self.old.dial) result (D.failures self.new.dial) }
        ensures calls { IfOk result (λ opened. opened.left ≡ self.old.calls) }
    {
        let opened = self.dial.open(node, host, port)?;
        Ok(Fuse::new(opened, self.calls))
    }
}
