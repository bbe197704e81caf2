ghost use Rattle.std.specs.Prelude.{◌≡◌, ◌+◌, ◌-◌, ◌<◌, ◌^◌, ◌++◌, ◌∷◌, [], length, MatchBool};

use crate::reached::Reached;
use crate::rule::{Adding, Counted, NoGain};
use logbook::{Offer, Seen, Start, Word};
use std::marker::Model;

/// Who alone adds to a list of changes.
#[derive(Drop)]
pub struct ListWriter<C> {
    head: Word<C, u64, Counted>,
    tip: Reached<C>,
}

impl<C> Model for ListWriter<C> {
    ghost use Rattle.std.specs.Prelude.{◌≡◌};
    ghost use Rattle.gw_lists.specs.Lists.{SoFar};
    ghost use Rattle.gw_lists.specs.Words.{head_of};

    ghost Value = { SoFar C };

    ghost view = { λ w. w.tip };

    ghost invariant = { λ w. w.head ≡ head_of w.tip.book };
}

impl<C> ListWriter<C> {
    /// A new list, to which nothing was added.
    pub fn new() -> Self
        ensures { result.list ≡ [] }
    {
        let (token, mut first, _second) = Seen::open(Start::alone(), 0, 0);
        ListWriter {
            head: Word::tracked(0, &mut first),
            tip: Reached::new(0, token),
        }
    }

    /// The whole list so far.
    pub fn reached(&self) -> Reached<C>
        ensures { result ≡ self.now }
    {
        self.tip.again()
    }

    /// Adds a change, and takes no memory. Where the word isn't the length that this writer knows, another has added a change, and
    /// nothing is added. There is no other writer, so that never comes; but no clause of a shared word can say so.
    pub fn add(&mut self, change: &C) -> bool
        requires { length self.old.list < 2 ^ 64 - 1 }
        ensures book { self.new.book ≡ self.old.book }
        ensures added { MatchBool result (self.new.list ≡ self.old.list ++ change.now ∷ []) (self.new.list ≡ self.old.list) }
    {
        let mut token = self.tip.token();
        let mut offer: Offer<C, u64, Counted, NoGain> = token.plain::<NoGain, C, Adding>(change);
        let mut pen = token.no_pen();
        let count = self.tip.front();
        let found = self
            .head
            .compare_exchange::<Adding, NoGain>(count, count + 1, &mut token, &mut offer, &mut pen);
        if found != count {
            return false;
        }
        self.tip = Reached::new(count + 1, token);
        true
    }
}
