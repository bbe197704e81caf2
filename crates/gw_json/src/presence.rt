//! The fields of an object, line by line: one that must be there, one that may be absent, one that has a default.
ghost use Rattle.std.specs.Prelude.{[], map, option_map, option_copied};
ghost use Rattle.gw_json.specs.Words.{Gives};
ghost use Rattle.gw_json.specs.Fields.{node_of, named_node, text_of, members_of};
ghost use Rattle.gw_json.specs.Presence as presence;

use crate::cursor::Cursor;
use crate::form::Form;
use crate::refusal::Refusal;
use std::alloc::Global;

impl<'v> Cursor<'v> {
    /// What the field of that name holds, which must be there.
    #[tactic(auto, unfolding(crate::specs::Presence::needed))]
    #[inline(always)]
    pub fn needed<F: Form>(&self, alloc: Global, name: &str, form: F) -> Result<F::Value, Refusal>
        ensures { Gives F.seen result (presence.needed (F.of form) name.now (node_of self.now)) }
    {
        form.read_field(alloc, &self.need_field(alloc, name)?)
    }

    /// What the field of that name holds, if it is there.
    #[tactic(auto, unfolding(crate::specs::Presence::given))]
    #[inline(always)]
    pub fn given<F: Form>(
        &self,
        alloc: Global,
        name: &str,
        form: F,
    ) -> Result<Option<F::Value>, Refusal>
        ensures { Gives (option_map F.seen) result (presence.given (F.of form) name.now (node_of self.now)) }
    {
        match self.field(alloc, name)? {
            Some(found) => Ok(Some(form.read_field(alloc, &found)?)),
            None => Ok(None),
        }
    }

    /// What the field of that name holds, or the default where it is absent.
    #[tactic(auto, unfolding(crate::specs::Presence::defaulted))]
    #[inline(always)]
    pub fn defaulted<F: Form>(
        &self,
        alloc: Global,
        name: &str,
        form: F,
        default: F::Value,
    ) -> Result<F::Value, Refusal>
        ensures { Gives F.seen result (presence.defaulted (F.seen default) (F.of form) name.now (node_of self.now)) }
    {
        match self.field(alloc, name)? {
            Some(found) => form.read_field(alloc, &found),
            None => Ok(default),
        }
    }

    /// What each item of the list in the field of that name holds, which must be there.
    #[tactic(auto, unfolding(crate::specs::Presence::needed))]
    pub fn needed_list<F: Form>(
        &self,
        alloc: Global,
        name: &str,
        most: usize,
        form: F,
    ) -> Result<Vec<F::Value>, Refusal>
        ensures { Gives (λ v. map F.seen v.items) result (presence.needed (presence.list_of most (F.of form)) name.now (node_of self.now)) }
    {
        self.need(alloc, name)?.each(alloc, most, form)
    }

    /// What each item of the list in the field of that name holds; an absent list is empty.
    #[tactic(auto, unfolding(crate::specs::Presence::defaulted))]
    pub fn listed<F: Form>(
        &self,
        alloc: Global,
        name: &str,
        most: usize,
        form: F,
    ) -> Result<Vec<F::Value>, Refusal>
        ensures { Gives (λ v. map F.seen v.items) result (presence.listed most (F.of form) name.now (node_of self.now)) }
    {
        match self.get(alloc, name)? {
            Some(found) => found.each(alloc, most, form),
            None => Ok(Vec::new(alloc)),
        }
    }

    /// The number of a port.
    pub fn port(&self, alloc: Global) -> Result<u16, Refusal>
        ensures { Gives (λ port. port) result (presence.port_of (node_of self.now)) }
    {
        Ok(self.number(alloc, 1, 65535)? as u16)
    }

    /// The text in the field of that name, of at most `most` bytes, where it stands.
    #[tactic(auto, unfolding(crate::specs::Presence::needed))]
    pub fn need_text(&self, alloc: Global, name: &str, most: usize) -> Result<&'v str, Refusal>
        ensures { Gives (λ text. text.now) result (presence.needed (text_of most) name.now (node_of self.now)) }
    {
        self.need_field(alloc, name)?.text_in(alloc, most)
    }

    /// The text in the field of that name, if the field is there.
    #[tactic(auto, unfolding(crate::specs::Presence::given))]
    pub fn some_text(
        &self,
        alloc: Global,
        name: &str,
        most: usize,
    ) -> Result<Option<&'v str>, Refusal>
        ensures { Gives option_copied result (presence.given (text_of most) name.now (node_of self.now)) }
    {
        match self.field(alloc, name)? {
            Some(found) => Ok(Some(found.text_in(alloc, most)?)),
            None => Ok(None),
        }
    }

    /// The object in the field of that name.
    #[tactic(auto, unfolding(crate::specs::Presence::needed, crate::specs::Presence::node_of_object))]
    pub fn need_object(&self, alloc: Global, name: &str) -> Result<Cursor<'v>, Refusal>
        ensures { Gives node_of result (presence.needed presence.node_of_object name.now (node_of self.now)) }
    {
        let found = self.need(alloc, name)?;
        found.object(alloc)?;
        Ok(found)
    }

    /// The spec of this object.
    pub fn spec(&self, alloc: Global) -> Result<Cursor<'v>, Refusal>
        ensures { Gives node_of result (presence.spec_of (node_of self.now)) }
    {
        self.need_object(alloc, "spec")
    }

    /// The members of the object in the field of that name, in the byte order of their names, and none where
    /// the field is absent.
    #[tactic(auto, unfolding(crate::specs::Presence::defaulted))]
    pub fn field_members(
        &self,
        alloc: Global,
        name: &str,
    ) -> Result<Vec<(String, Cursor<'v>)>, Refusal>
        ensures { Gives (λ v. map named_node v.items) result (presence.defaulted [] members_of name.now (node_of self.now)) }
    {
        match self.get(alloc, name)? {
            Some(found) => found.members(alloc),
            None => Ok(Vec::new(alloc)),
        }
    }

    /// Whether the field of that name is there, whatever it is.
    #[tactic(auto, unfolding(crate::specs::Presence::is_given))]
    pub fn is_given(&self, alloc: Global, name: &str) -> Result<bool, Refusal>
        ensures { Gives (λ there. there) result (presence.is_given name.now (node_of self.now)) }
    {
        Ok(self.field(alloc, name)?.is_some())
    }
}
