ghost use Rattle.std.specs.Prelude.{◌≡◌, ◌+◌, min};
ghost use Rattle.gw_snap.specs.Counts.{Rises, last_count};

use crate::pass::Pass;
use crate::told::Told;
use std::marker::Model;

/// How often there was no place, and how often a pass was found ahead of its publisher. Both counts stop at the last u64.
#[derive(Drop)]
pub struct SnapFaults {
    places: u64,
    ahead: u64,
}

impl Model for SnapFaults {
    ghost use Rattle.gw_snap.specs.Counts.{Counts};

    ghost Value = { Counts };

    ghost view = { λ faults. record { places = faults.places; ahead = faults.ahead } };
}

impl SnapFaults {
    /// No fault yet.
    pub fn new() -> SnapFaults
        ensures places { result.places ≡ 0 }
        ensures ahead { result.ahead ≡ 0 }
    {
        SnapFaults {
            places: 0,
            ahead: 0,
        }
    }

    /// How often there was no place.
    pub fn places(&self) -> u64
        ensures { result ≡ self.now.places }
    {
        self.places
    }

    /// How often a pass was ahead.
    pub fn ahead(&self) -> u64
        ensures { result ≡ self.now.ahead }
    {
        self.ahead
    }

    /// Adds what a pass counted.
    pub fn take<T: Told>(&mut self, pass: &Pass<T>)
        ensures places { self.new.places ≡ min (self.old.places + pass.now.refused) last_count }
        ensures ahead { self.new.ahead ≡ min (self.old.ahead + pass.now.ahead) last_count }
    {
        self.places = self.places.saturating_add(pass.refused());
        self.ahead = self.ahead.saturating_add(pass.ahead());
    }

    /// Once more there was no place.
    pub(crate) fn count_place(&mut self)
        ensures places { Rises self.old.places self.new.places }
        ensures ahead { self.new.ahead ≡ self.old.ahead }
    {
        self.places = self.places.saturating_add(1);
    }
}
