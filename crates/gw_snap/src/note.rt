use crate::told::Told;
use gw_lists::Reached;
use std::marker::Model;

/// What a publication tells those who are to learn of it. It can be learnt any number of times.
#[derive(Drop)]
pub struct Note<T: Told> {
    pub(crate) list: Reached<T::Change>,
}

impl<T: Told> Model for Note<T> {
    ghost use Rattle.gw_snap.specs.Lists.{SoFar};

    ghost Value = { SoFar T.Change };

    ghost view = { λ note. note.list };
}
