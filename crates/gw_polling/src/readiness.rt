ghost use Rattle.std.specs.Prelude.{◌≡◌, ◌==◌, true, false, not, if◌then◌else◌};
ghost use Rattle.std.specs.List.{filter};
ghost use Rattle.gw_polling.specs.PollMemory.{Readiness as Plain, first_poll, is_marked, has_mark, after_mark, after_wait, after_call};

use std::marker::Model;

/// Before which calls a form in memory isn't ready, the number of the next call, and how many polls weren't ready.
#[derive(Drop)]
pub(crate) struct Readiness {
    marks: Vec<u64>,
    next: u64,
    waits: u64,
}

impl Model for Readiness {
    ghost Value = { Plain };

    ghost view = { λ r. record { marks = r.marks.items; next = r.next; waits = r.waits } };
}

impl Readiness {
    /// Before each call with one of these numbers it isn't ready once, the first call being 0.
    pub(crate) fn new(marks: Vec<u64>) -> Self
        ensures { result ≡ first_poll marks.items }
    {
        Readiness {
            marks,
            next: 0,
            waits: 0,
        }
    }

    /// The marks to come.
    pub(crate) fn marks(&self) -> &[u64]
        ensures { result.now ≡ self.now.marks }
    {
        self.marks.as_slice()
    }

    /// How many polls weren't ready.
    pub(crate) fn waits(&self) -> u64
        ensures { result ≡ self.now.waits }
    {
        self.waits
    }

    /// Whether there is a mark before the next call. It is gone then, and counted.
    pub(crate) fn meets_mark(&mut self) -> bool
        ensures met { result ≡ is_marked self.old }
        ensures after { self.new ≡ (if is_marked self.old then after_mark self.old else self.old) }
        ensures had { result ≡ true → has_mark self.old ≡ true }
        ensures none { has_mark self.old ≡ false → has_mark self.new ≡ false }
    {
        if !self.marks.contains(&self.next) {
            return false;
        }
        take_away(&mut self.marks, self.next);
        self.wait();
        true
    }

    /// Counts a poll that wasn't ready.
    pub(crate) fn wait(&mut self)
        ensures { self.new ≡ after_wait self.old }
    {
        self.waits = self.waits.saturating_add(1);
    }

    /// Counts a call.
    pub(crate) fn pass(&mut self)
        ensures { self.new ≡ after_call self.old }
    {
        self.next = self.next.saturating_add(1);
    }
}

/// Takes this number away.
pub(crate) fn take_away(numbers: &mut Vec<u64>, taken: u64)
    ensures { numbers.new.items ≡ filter (λ number. not (number == taken)) numbers.old.items }
{
    numbers.retain(|number| *number != taken);
}
