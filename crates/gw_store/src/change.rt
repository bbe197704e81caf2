//! Changes of a list at one place, and how they are undone.
ghost use Rattle.std.specs.Prelude.{◌≡◌, ◌<◌, ◌≤◌, ◌+◌, ◌-◌, Some, None, false, is_some, length, set, vec_len, vec_capacity};
ghost use Rattle.std.specs.List.{insert, remove};
ghost use Rattle.gw_store.specs.Changes.{IsUndoable, one_if, there, undone};

use std::mem;

/// What a change displaced at a place, and where: what it takes to undo it, with no memory.
#[derive(Drop)]
pub struct Change<X: Drop> {
    pub at: usize,
    /// What stood there before.
    pub had: Option<X>,
    /// Whether what was put stands there now.
    pub has: bool,
}

impl<X: Drop> Change<X> {
    /// Puts an item in the place of another.
    pub fn set(list: &mut Vec<X>, at: usize, item: X) -> Self
        requires { at < length list.old.items }
        ensures items { list.new.items ≡ set list.old.items at item }
        ensures undoable { IsUndoable result.at result.had result.has list.old.items list.new.items (vec_capacity list.old - vec_len list.old) (vec_capacity list.new - vec_len list.new) }
        ensures put { there result.at result.has list.new.items ≡ Some item }
    {
        let had = mem::replace(&mut list[at], item);
        Change {
            at,
            had: Some(had),
            has: true,
        }
    }

    /// Puts an item between others, for which there is room.
    pub fn insert(list: &mut Vec<X>, at: usize, item: X) -> Self
        requires place { at ≤ length list.old.items }
        requires room { vec_len list.old < vec_capacity list.old }
        ensures items { list.new.items ≡ insert list.old.items at item }
        ensures undoable { IsUndoable result.at result.had result.has list.old.items list.new.items (vec_capacity list.old - vec_len list.old) (vec_capacity list.new - vec_len list.new) }
        ensures put { there result.at result.has list.new.items ≡ Some item }
    {
        list.insert(at, item).unwrap();
        Change {
            at,
            had: None,
            has: true,
        }
    }

    /// Takes an item away.
    pub fn remove(list: &mut Vec<X>, at: usize) -> Self
        requires { at < length list.old.items }
        ensures items { list.new.items ≡ remove list.old.items at }
        ensures undoable { IsUndoable result.at result.had result.has list.old.items list.new.items (vec_capacity list.old - vec_len list.old) (vec_capacity list.new - vec_len list.new) }
        ensures put { result.has ≡ false }
    {
        let had = list.remove(at);
        Change {
            at,
            had: Some(had),
            has: false,
        }
    }

    /// Leaves a list as it is.
    pub fn nothing() -> Self
        ensures { result ≡ record { at = 0; had = None; has = false } }
    {
        Change {
            at: 0,
            had: None,
            has: false,
        }
    }

    /// Gives a place again what it had, and gives up what stands there, if something does.
    pub fn undo(self, list: &mut Vec<X>) -> Option<X>
        requires within { self.at + one_if self.has ≤ length list.old.items }
        requires room { vec_len list.old + one_if (is_some self.had) ≤ vec_capacity list.old + one_if self.has }
        ensures items { list.new.items ≡ undone self.at self.had self.has list.old.items }
        ensures value { result ≡ there self.at self.has list.old.items }
        ensures len { vec_len list.new + one_if self.has ≡ vec_len list.old + one_if (is_some self.had) }
        ensures capacity { vec_capacity list.new ≡ vec_capacity list.old }
    {
        let Change { at, had, has } = self;
        match had {
            Some(item) if has => Some(mem::replace(&mut list[at], item)),
            Some(item) => {
                list.insert(at, item).unwrap();
                None
            }
            None if has => Some(list.remove(at)),
            None => None,
        }
    }
}
