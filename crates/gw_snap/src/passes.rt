ghost use Rattle.std.specs.Prelude.{◌≡◌, ◌↔◌, ◌∷◌, [], reverse, None, IfSome};

use crate::known::Known;
use crate::pass::RuledPass;
use crate::rule::OneOpening;
use crate::shown::Shown;
use crate::told::Told;
use crossbeam_utils::rule::Protocol;
use std::marker::Model;

/// The passes of an opening that are left to take, the next one first.
pub type Passes<T> = RuledPasses<T, OneOpening>;

/// Such passes, under any rule.
#[derive(Drop)]
pub struct RuledPasses<T: Told, P: Protocol<Shown<T, T::Change>, Known<T::Fixed>>> {
    left: Vec<RuledPass<T, P>>,
}

impl<T: Told, P: Protocol<Shown<T, T::Change>, Known<T::Fixed>>> Model for RuledPasses<T, P> {
    ghost use Rattle.std.specs.Prelude.{List, reverse};
    ghost use Rattle.gw_snap.specs.Lists.{Seen};

    ghost Value = { List (Seen T.Change T.Fixed) };

    ghost view = { λ passes. reverse passes.left.items };
}

impl<T: Told, P: Protocol<Shown<T, T::Change>, Known<T::Fixed>>> RuledPasses<T, P> {
    /// These passes.
    pub(crate) fn new(left: Vec<RuledPass<T, P>>) -> Self
        ensures { result ≡ reverse left.items }
    {
        RuledPasses { left }
    }

    /// The next pass.
    #[tactic(auto, using(crate::proofs::ListLemmas::reverse_snoc))]
    pub fn take(&mut self) -> Option<RuledPass<T, P>>
        ensures some { IfSome result (λ pass. self.old ≡ pass ∷ self.new) }
        ensures none { (result ≡ None) ↔ (self.old ≡ []) }
        ensures same { result ≡ None → self.new ≡ self.old }
    {
        self.left.pop()
    }
}
