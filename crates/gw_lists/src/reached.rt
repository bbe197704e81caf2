ghost use Rattle.std.specs.Prelude.{◌≡◌, ◌≤◌, ◌⊎◌, length};
ghost use Rattle.gw_lists.specs.Lists.{BeginsWith};

use crate::rule::Counted;
use logbook::Seen;
use std::marker::Model;

/// How far a list of changes was seen to come: its length then, and a token that it has come so far.
#[derive(Drop)]
pub struct Reached<C> {
    count: u64,
    token: Seen<C, u64, Counted>,
}

impl<C> Model for Reached<C> {
    ghost use Rattle.std.specs.Prelude.{◌≡◌, length};
    ghost use Rattle.gw_lists.specs.Lists.{SoFar};

    ghost Value = { SoFar C };

    ghost view = { λ r. record { list = r.token.log; book = r.token.book } };

    ghost invariant = { λ r. r.count ≡ length r.token.log };
}

impl<C> Reached<C> {
    /// So many changes, with a token of them.
    pub(crate) fn new(count: u64, token: Seen<C, u64, Counted>) -> Self
        requires { count ≡ length token.log }
        ensures { result ≡ record { list = token.log; book = token.book } }
    {
        Reached { count, token }
    }

    /// The token.
    pub(crate) fn token(&self) -> Seen<C, u64, Counted>
        ensures list { result.log ≡ self.now.list }
        ensures book { result.book ≡ self.now.book }
    {
        self.token.again()
    }

    /// The same once more. It takes no memory.
    pub fn again(&self) -> Self
        ensures { result ≡ self.now }
    {
        Reached {
            count: self.count,
            token: self.token.again(),
        }
    }

    /// How many changes.
    pub fn front(&self) -> u64
        ensures { result ≡ length self.now.list }
    {
        self.count
    }

    /// Takes in what the other has seen of the same list: the longer of the two stays.
    pub fn learn(&mut self, other: &Self)
        requires { other.now.book ≡ self.old.book }
        ensures book { self.new.book ≡ self.old.book }
        ensures mine { BeginsWith self.old.list self.new.list }
        ensures theirs { BeginsWith other.now.list self.new.list }
        ensures one { (self.new.list ≡ self.old.list) ⊎ (self.new.list ≡ other.now.list) }
    {
        if self.count < other.count {
            self.go_on(other);
        } else {
            other.is_behind(self);
        }
    }

    /// Goes on to what the other has seen of the same list, which is no shorter.
    pub fn go_on(&mut self, other: &Self)
        requires book { other.now.book ≡ self.old.book }
        requires longer { length self.old.list ≤ length other.now.list }
        ensures all { self.new ≡ other.now }
        ensures mine { BeginsWith self.old.list other.now.list }
    {
        self.is_behind(other);
        *self = other.again();
    }

    // What the shorter has seen begins what the other has. Nothing of it runs.
    fn is_behind(&self, other: &Self)
        requires book { other.now.book ≡ self.now.book }
        requires longer { length self.now.list ≤ length other.now.list }
        ensures { BeginsWith self.now.list other.now.list }
    {
        let mut both = self.token.again();
        both.learn(&other.token);
    }
}
