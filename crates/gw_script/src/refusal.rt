ghost use Rattle.std.specs.Prelude.{◌≡◌, option_map};
ghost use Rattle.gw_script.specs.declared.refusal.StepRefusal.TheVariants.{NoMemory as OutOfMemory};
ghost use Rattle.gw_script.specs.Refusals.{step_refusal_number, step_refusal_path};

use std::alloc::{AllocError, AllocFailed};

/// Why a line of a script is no step.
#[derive(Clone, Copy, Debug, PartialEq, Eq, Drop)]
pub enum StepRefusal {
    /// It has none of the forms.
    NotStep,
    /// It is longer than a line may be.
    TooLong,
    /// Memory ran out: nothing is said of the line.
    NoMemory,
}

impl StepRefusal {
    /// The number under which it is printed; want of memory is never printed and has 0.
    pub fn number(self) -> u8
        ensures { result ≡ step_refusal_number self }
    {
        match self {
            StepRefusal::NotStep => 8,
            StepRefusal::TooLong => 6,
            StepRefusal::NoMemory => 0,
        }
    }

    /// The path that is printed with it, if one is.
    pub fn path(self) -> Option<&'static str>
        ensures { option_map (λ p. p.now) result ≡ step_refusal_path self }
    {
        match self {
            StepRefusal::TooLong => Some("line"),
            StepRefusal::NotStep | StepRefusal::NoMemory => None,
        }
    }
}

impl From<AllocError> for StepRefusal {
    ghost from_gives = { λ _ e. e ≡ OutOfMemory };

    fn from(_: AllocError) -> StepRefusal {
        StepRefusal::NoMemory
    }
}

impl<T: Drop> From<AllocFailed<T>> for StepRefusal {
    ghost from_gives = { λ _ e. e ≡ OutOfMemory };

    fn from(_: AllocFailed<T>) -> StepRefusal {
        StepRefusal::NoMemory
    }
}
