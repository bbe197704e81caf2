ghost use Rattle.std.specs.Prelude.{◌≡◌, if◌then◌else◌, IsTrue};
ghost use Rattle.gw_link.specs.Memory.{Calls, first_call, is_failing, after_pass, after_fail};

use std::marker::Model;

/// Which calls of a form in memory fail, the number of the next call, and how many have failed.
#[derive(Drop)]
pub struct Plan {
    fails: Vec<u64>,
    next: u64,
    faults: u64,
}

impl Model for Plan {
    ghost Value = { Calls };

    ghost view = { λ p. record { fails = p.fails.items; next = p.next; faults = p.faults } };
}

impl Plan {
    /// The calls with these numbers fail, the first call being 0.
    pub fn new(fails: Vec<u64>) -> Self
        ensures { result ≡ first_call fails.items }
    {
        Plan {
            fails,
            next: 0,
            faults: 0,
        }
    }

    /// How many calls have failed.
    pub fn faults(&self) -> u64
        ensures { result ≡ self.now.faults }
    {
        self.faults
    }

    /// Whether the next call is listed. Nothing is counted.
    pub fn fails(&self) -> bool
        ensures { result ≡ is_failing self.now }
    {
        self.fails.contains(&self.next)
    }

    /// Counts a call that did what it is for.
    pub fn pass(&mut self)
        ensures { self.new ≡ after_pass self.old }
    {
        self.next = self.next.saturating_add(1);
    }

    /// Counts a call that failed.
    pub fn fail(&mut self)
        ensures { self.new ≡ after_fail self.old }
    {
        self.next = self.next.saturating_add(1);
        self.faults = self.faults.saturating_add(1);
    }
}
