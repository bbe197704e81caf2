ghost use Rattle.std.specs.Prelude.{◌≡◌, ◌<◌, length};
ghost use Rattle.std.specs.Io.{ReadsAtMost};
ghost use Rattle.std.specs.Io.KnownBytes.{ReadConsumes};
ghost use Rattle.gw_net.specs.Real.{SourceState};

use crate::fault_count::FaultCount;
use crate::pieces::read_piece;
use gw_link::{Failed, Source};
use std::io::Read;
use std::marker::Model;

/// A source over a reader, as standard input. It counts what it gives, and tells what its reader tells.
#[derive(Drop)]
pub struct StdSource<R: Read + Drop> {
    reader: R,
    given: u64,
    faults: FaultCount,
}

impl<R: Read + Drop> Model for StdSource<R> {
    ghost use Rattle.gw_net.specs.Real.{SourceState};

    ghost Value = { SourceState };

    ghost view = { λ s. record { left = R.remaining s.reader; given = s.given; faults = s.faults } };
}

impl<R: Read + Drop> StdSource<R> {
    /// A source over a reader, of which nothing is read yet.
    pub fn new(reader: R) -> Self
        ensures { result ≡ record { left = R.remaining reader; given = 0; faults = 0 } }
    {
        StdSource {
            reader,
            given: 0,
            faults: FaultCount::new(),
        }
    }
}

impl<R: Read + Drop> Source for StdSource<R> {
    ghost left = { λ s. s.left };

    ghost given = { λ s. s.given };

    ghost faults = { λ s. s.faults };

    fn read(&mut self, buf: &mut [u8]) -> Result<usize, Failed> {
        // What couldn't be counted isn't read.
        if u64::MAX - self.given >= buf.len() as u64 {
            if let Ok(taken) = read_piece(&mut self.reader, buf) {
                self.given += taken as u64;
                return Ok(taken);
            }
        }
        Err(self.faults.fail())
    }
}
