ghost use Rattle.std.specs.Prelude.{◌≡◌, OnOk, OnErr};
ghost use Rattle.std.specs.Io.KnownBytes.{Appends};
ghost use Rattle.dt_edge.specs.Writers.{AppendsFirst};

use crate::edge::{Sink, SinkFault};
use std::io;
use std::io::Write;

/// The standard output. It tells nothing of what it took. Its faults are the failures of the output,
/// and where it takes nothing of a piece that isn't empty.
#[derive(Drop)]
pub struct OutSink<R> {
    out: R,
    faults: u64,
}

impl<R: Print> OutSink<R> {
    ghost use Rattle.std.specs.Prelude.{◌≡◌};
    ghost use Rattle.dt_edge.specs.Counts.{sink_faults};

    /// A sink over the part of the runtime that prints. Its count starts at 0.
    pub fn new(out: R) -> OutSink<R>
        ensures { sink_faults result ≡ 0 }
    {
        OutSink { out, faults: 0 }
    }
}

// Writes all, unless the output fails or takes nothing; then it took some first part.
fn write_all_to<W: Write>(out: &mut W, bytes: &[u8]) -> Result<(), SinkFault>
    ensures all { OnOk result (Appends (W.contents out.old) (W.contents out.new) bytes.now) }
    ensures part { OnErr result (AppendsFirst (W.contents out.old) (W.contents out.new) bytes.now) }
{
    let mut rest = bytes;
    'writes: while !rest.is_empty() {
        match out.write(rest) {
            Ok(count) if count > 0 => rest = &rest[count..],
            _ => return Err(SinkFault),
        }
    }
    Ok(())
}

impl<R: Print> Sink for OutSink<R> {
    ghost use Rattle.std.specs.Prelude.{None};
    ghost use Rattle.dt_edge.specs.Counts.{sink_faults};

    ghost written = { λ _. None };

    ghost faults = { sink_faults };

    ghost pieces = { λ _. None };

    ghost takes = { λ _ _. ⊥ };

    fn write_all(&mut self, bytes: &[u8]) -> Result<(), SinkFault> {
        let written = write_all_to(&mut io::writer(&self.out), bytes);
        if written.is_err() {
            self.faults = self.faults.saturating_add(1);
        }
        written
    }
}
