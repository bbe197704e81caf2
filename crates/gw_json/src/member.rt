//! Fields whose paths are written only where they are wanted.
ghost use Rattle.std.specs.Prelude.{◌≡◌, IfOk};
ghost use Rattle.gw_json.specs.Words.{Gives};
ghost use Rattle.gw_json.specs.Fields.{node_of, text_of};
ghost use Rattle.gw_json.specs.Members.{node_of_member};

use crate::cursor::Cursor;
use crate::refusal::Refusal;
use serde_json::Value;
use std::alloc::{AllocError, Global};

/// A field of an object, whose path isn't written yet.
#[derive(Drop)]
pub struct Member<'c, 'v> {
    pub value: &'v Value,
    pub object: &'c Cursor<'v>,
    pub name: &'c str,
}

impl<'c, 'v> Member<'c, 'v> {
    /// The same field with its path.
    pub fn cursor(&self, alloc: Global) -> Result<Cursor<'v>, AllocError>
        ensures { IfOk result (λ c. node_of c ≡ node_of_member self.now) }
    {
        Ok(Cursor {
            value: self.value,
            path: self.object.path.member(alloc, self.name)?,
        })
    }

    /// The text, of at most `most` bytes, where it stands.
    #[tactic(auto, unfolding(crate::specs::Fields::text_of))]
    pub fn text_in(&self, alloc: Global, most: usize) -> Result<&'v str, Refusal>
        ensures { Gives (λ text. text.now) result (text_of most (node_of_member self.now)) }
    {
        match self.value.as_str() {
            Some(text) if text.len() <= most => Ok(text),
            _ => self.cursor(alloc)?.text_in(alloc, most),
        }
    }

    /// The refusal of a value that isn't of the form that its field wants.
    pub fn bad_value(&self, alloc: Global) -> Result<Refusal, AllocError>
        ensures { IfOk result (λ e. e ≡ Refusal.BadValue (node_of_member self.now).path) }
    {
        self.cursor(alloc)?.bad_value(alloc)
    }
}

/// Where a text may stand: an item of a list, or a field.
pub trait Node {
    ghost use Rattle.std.specs.Prelude.{◌≡◌, IfOk};
    ghost use Rattle.gw_json.specs.Words.{Gives};
    ghost use Rattle.gw_json.specs.Fields.{Node as At, text_of};
    ghost use Rattle.gw_json.specs.declared.refusal.Refusal.{Refusal};

    /// The value and its path.
    ghost node: { Self → At };

    /// The text, of at most `most` bytes, where it stands.
    fn text_in(&self, alloc: Global, most: usize) -> Result<&str, Refusal>
        ensures { Gives (λ text. text.now) result (text_of most (node self.now)) };

    /// The refusal of a value that isn't of the form that is wanted.
    fn bad_value(&self, alloc: Global) -> Result<Refusal, AllocError>
        ensures { IfOk result (λ e. e ≡ Refusal.BadValue (node self.now).path) };
}

impl<'v> Node for Cursor<'v> {
    ghost node = { node_of };

    fn text_in(&self, alloc: Global, most: usize) -> Result<&str, Refusal> {
        self.text_in(alloc, most)
    }

    fn bad_value(&self, alloc: Global) -> Result<Refusal, AllocError> {
        self.bad_value(alloc)
    }
}

impl<'c, 'v> Node for Member<'c, 'v> {
    ghost node = { node_of_member };

    fn text_in(&self, alloc: Global, most: usize) -> Result<&str, Refusal> {
        self.text_in(alloc, most)
    }

    fn bad_value(&self, alloc: Global) -> Result<Refusal, AllocError> {
        self.bad_value(alloc)
    }
}
