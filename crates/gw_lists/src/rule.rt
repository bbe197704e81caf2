use logbook::{Gain, Plain, Play, Rule};

/// The word that threads share is the length of the list.
pub struct Counted;

impl<C> Rule<C, u64> for Counted {
    ghost use Rattle.std.specs.Prelude.{[]};
    ghost use base.Fml.{ftrue};
    ghost use Rattle.gw_lists.specs.Words.{IsCounted};

    ghost holds = { λ cells list. IsCounted cells list };

    ghost first = { [] };

    ghost hinted = { λ n list. Unit {0} };

    ghost shows = { λ list. [] };

    ghost keeps = { λ names list. ftrue };

    ghost moves = { λ ask before after answer. Unit {0} };
}

/// Who adds a change trades nothing for it.
pub struct NoGain;

impl<C> Gain<C, u64> for NoGain {
    ghost use base.Fml.{ftrue};

    ghost after = { λ names about answer. ftrue };
}

/// The step that adds a change.
pub struct Adding;

impl<C> Play<C, u64> for Adding {
    ghost use Rattle.gw_lists.specs.Words.{Adds};

    ghost then = { Adds };
}

impl<C> Plain<C, C, u64> for Adding {
    ghost use Rattle.std.specs.Prelude.{None};

    ghost ask = { λ change. change };

    ghost state = { λ change. None };
}
