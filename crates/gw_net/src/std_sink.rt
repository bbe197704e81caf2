ghost use Rattle.std.specs.Prelude.{◌≡◌, ◌<◌, length};
ghost use Rattle.std.specs.Io.{WritesAtMost};
ghost use Rattle.std.specs.Io.KnownBytes.{WriteAppends};
ghost use Rattle.gw_net.specs.Real.{SinkState};

use crate::fault_count::FaultCount;
use crate::pieces::write_piece;
use gw_link::{Failed, Sink};
use std::io::Write;
use std::marker::Model;

/// A sink over a writer, as standard output. It tells what its writer tells. A writer that takes nothing is a fault.
#[derive(Drop)]
pub struct StdSink<W: Write + Drop> {
    writer: W,
    faults: FaultCount,
}

impl<W: Write + Drop> Model for StdSink<W> {
    ghost use Rattle.gw_net.specs.Real.{SinkState};

    ghost Value = { SinkState };

    ghost view = { λ s. record { written = W.contents s.writer; faults = s.faults } };
}

impl<W: Write + Drop> StdSink<W> {
    /// A sink over a writer.
    pub fn new(writer: W) -> Self
        ensures { result ≡ record { written = W.contents writer; faults = 0 } }
    {
        StdSink {
            writer,
            faults: FaultCount::new(),
        }
    }
}

impl<W: Write + Drop> Sink for StdSink<W> {
    ghost written = { λ s. s.written };

    ghost faults = { λ s. s.faults };

    fn write(&mut self, piece: &[u8]) -> Result<usize, Failed> {
        match write_piece(&mut self.writer, piece) {
            Ok(taken) if taken > 0 => Ok(taken),
            _ => Err(self.faults.fail()),
        }
    }
}
