//! A value inside an object that was read, and the fields below it.
ghost use Rattle.std.specs.Prelude.{◌≡◌, ◌≤◌, [], map, option_map, string_bytes, string_cmp, Ok, IfOk};
ghost use Rattle.std.specs.List.Sorted.{IsStrictlySortedBy};
ghost use Rattle.std.specs.Map.{keys_of};
ghost use Rattle.serde_json.specs.View.{view, items_view, members_view};
ghost use Rattle.gw_json.specs.Words.{Gives, each};
ghost use Rattle.gw_json.specs.Members.{node_of_member};
ghost use Rattle.gw_json.specs.Paths.{item_path};
ghost use Rattle.gw_json.specs.Presence.{list_of};
ghost use Rattle.gw_json.specs.Fields.{Node, node_of, object_of, count_of, field_of, need_of, items_of, text_of, number_of, truth_of, members_of, named_node, nodes_from, named_from, IsInByteOrder};

use crate::form::Form;
use crate::member::Member;
use crate::path::Path;
use crate::refusal::Refusal;
use serde_json::{Map, Value};
use std::alloc::{AllocError, Global};

/// A value inside an object that was read, with its path.
#[derive(Drop)]
pub struct Cursor<'v> {
    pub value: &'v Value,
    pub path: Path,
}

impl<'v> Cursor<'v> {
    /// The object as a whole, from which paths are written.
    pub fn root(alloc: Global, value: &'v Value) -> Result<Cursor<'v>, Refusal>
        ensures { Gives node_of result (Ok (record { value = view value.now; path = [] })) }
    {
        Ok(Cursor {
            value,
            path: Path::of(alloc, "")?,
        })
    }

    /// Whether the value is an object.
    #[tactic(auto, unfolding(crate::specs::Fields::object_of))]
    pub fn object(&self, alloc: Global) -> Result<(), Refusal>
        ensures { Gives (λ u. u) result (object_of (node_of self.now)) }
    {
        if self.value.is_object() {
            Ok(())
        } else {
            Err(self.wrong_type(alloc)?)
        }
    }

    /// How many members the object has, those with a null value included.
    #[tactic(auto, using(crate::proofs::ValueLemmas::members_len_is), unfolding(crate::specs::Fields::count_of))]
    pub fn member_count(&self, alloc: Global) -> Result<usize, Refusal>
        ensures { Gives (λ n. n) result (count_of (node_of self.now)) }
    {
        match self.value.as_object() {
            Some(members) => Ok(members.len()),
            None => Err(self.wrong_type(alloc)?),
        }
    }

    /// The field of that name; an absent one and one that is null are alike.
    pub fn get(&self, alloc: Global, name: &str) -> Result<Option<Cursor<'v>>, Refusal>
        ensures { Gives (option_map node_of) result (field_of name.now (node_of self.now)) }
    {
        match self.field(alloc, name)? {
            Some(found) => Ok(Some(found.cursor(alloc)?)),
            None => Ok(None),
        }
    }

    /// The field of that name, whose path isn't written yet.
    #[tactic(auto, unfolding(crate::specs::Fields::field_of))]
    #[inline(always)]
    pub fn field<'c>(
        &'c self,
        alloc: Global,
        name: &'c str,
    ) -> Result<Option<Member<'c, 'v>>, Refusal>
        ensures { Gives (option_map node_of_member) result (field_of name.now (node_of self.now)) }
    {
        self.object(alloc)?;
        match self.value.get(name) {
            Some(value) if !value.is_null() => Ok(Some(Member {
                value,
                object: self,
                name,
            })),
            _ => Ok(None),
        }
    }

    /// The field of that name, which is Missing where `get` finds none.
    pub fn need(&self, alloc: Global, name: &str) -> Result<Cursor<'v>, Refusal>
        ensures { Gives node_of result (need_of name.now (node_of self.now)) }
    {
        Ok(self.need_field(alloc, name)?.cursor(alloc)?)
    }

    /// The field of that name, which is Missing where `field` finds none.
    #[tactic(auto, unfolding(crate::specs::Fields::need_of))]
    #[inline(always)]
    pub fn need_field<'c>(&'c self, alloc: Global, name: &'c str) -> Result<Member<'c, 'v>, Refusal>
        ensures { Gives node_of_member result (need_of name.now (node_of self.now)) }
    {
        match self.field(alloc, name)? {
            Some(field) => Ok(field),
            None => Err(Refusal::Missing(self.path.member(alloc, name)?)),
        }
    }

    /// The text, of at most `most` bytes, where it stands.
    #[tactic(auto, unfolding(crate::specs::Fields::text_of))]
    pub fn text_in(&self, alloc: Global, most: usize) -> Result<&'v str, Refusal>
        ensures { Gives (λ text. text.now) result (text_of most (node_of self.now)) }
    {
        let Some(text) = self.value.as_str() else {
            return Err(self.wrong_type(alloc)?);
        };
        if text.len() > most {
            return Err(self.too_long(alloc)?);
        }
        Ok(text)
    }

    /// The text, of at most `most` bytes, once more.
    pub fn text(&self, alloc: Global, most: usize) -> Result<String, Refusal>
        ensures { Gives string_bytes result (text_of most (node_of self.now)) }
    {
        Ok(String::from_str(alloc, self.text_in(alloc, most)?)?)
    }

    /// The whole number, from `least` to `most`.
    #[tactic(auto, unfolding(crate::specs::Fields::number_of))]
    pub fn number(&self, alloc: Global, least: u64, most: u64) -> Result<u64, Refusal>
        ensures reads { Gives (λ n. n) result (number_of least most (node_of self.now)) }
        ensures within { IfOk result (λ n. (least ≤ n) × (n ≤ most)) }
    {
        let Some(number) = self.value.as_number() else {
            return Err(self.wrong_type(alloc)?);
        };
        if !(number.is_u64() || number.is_i64()) {
            return Err(self.wrong_type(alloc)?);
        }
        match number.as_u64() {
            Some(whole) if least <= whole && whole <= most => Ok(whole),
            _ => Err(self.bad_value(alloc)?),
        }
    }

    /// True or false, which no text or number stands for.
    #[tactic(auto, unfolding(crate::specs::Fields::truth_of))]
    pub fn truth(&self, alloc: Global) -> Result<bool, Refusal>
        ensures { Gives (λ b. b) result (truth_of (node_of self.now)) }
    {
        match self.value.as_bool() {
            Some(truth) => Ok(truth),
            None => Err(self.wrong_type(alloc)?),
        }
    }

    /// The items of the list, of which there are at most `most`.
    #[tactic(auto, unfolding(crate::specs::Fields::items_of))]
    pub fn items(&self, alloc: Global, most: usize) -> Result<Vec<Cursor<'v>>, Refusal>
        ensures { Gives (λ v. map node_of v.items) result (items_of most (node_of self.now)) }
    {
        let items = self.item_values(alloc, most)?;
        Ok(item_cursors(alloc, &self.path, items)?)
    }

    // The values of the list's items, of which there are at most `most`.
    #[tactic(auto, using(crate::proofs::ValueLemmas::items_len_is), unfolding(crate::specs::Fields::items_of))]
    fn item_values(&self, alloc: Global, most: usize) -> Result<&'v [Value], Refusal>
        ensures { Gives (λ items. nodes_from self.now.path 0 (items_view items.now)) result (items_of most (node_of self.now)) }
    {
        let Some(items) = self.value.as_array() else {
            return Err(self.wrong_type(alloc)?);
        };
        if items.len() > most {
            return Err(self.too_long(alloc)?);
        }
        Ok(items.as_slice())
    }

    /// What each item of the list holds, of which there are at most `most`.
    #[tactic(auto, unfolding(crate::specs::Presence::list_of))]
    pub fn each<F: Form>(
        &self,
        alloc: Global,
        most: usize,
        form: F,
    ) -> Result<Vec<F::Value>, Refusal>
        ensures { Gives (λ v. map F.seen v.items) result (list_of most (F.of form) (node_of self.now)) }
    {
        each_item(alloc, &self.path, self.item_values(alloc, most)?, form)
    }

    /// The members of the object in the byte order of their names, those with a null value included.
    #[tactic(auto, using(crate::proofs::Names::names_ascend), unfolding(crate::specs::Fields::members_of))]
    pub fn members(&self, alloc: Global) -> Result<Vec<(String, Cursor<'v>)>, Refusal>
        ensures reads { Gives (λ v. map named_node v.items) result (members_of (node_of self.now)) }
        ensures ordered { IfOk result (λ v. IsInByteOrder (map named_node v.items)) }
    {
        match self.value.as_object() {
            Some(members) => Ok(member_cursors(alloc, &self.path, members)?),
            None => Err(self.wrong_type(alloc)?),
        }
    }

    /// The refusal of a value that isn't of the form that its field wants.
    pub fn bad_value(&self, alloc: Global) -> Result<Refusal, AllocError>
        ensures { IfOk result (λ e. e ≡ Refusal.BadValue self.now.path) }
    {
        Ok(Refusal::BadValue(self.path.copied(alloc)?))
    }

    fn wrong_type(&self, alloc: Global) -> Result<Refusal, AllocError>
        ensures { IfOk result (λ e. e ≡ Refusal.WrongType self.now.path) }
    {
        Ok(Refusal::WrongType(self.path.copied(alloc)?))
    }

    fn too_long(&self, alloc: Global) -> Result<Refusal, AllocError>
        ensures { IfOk result (λ e. e ≡ Refusal.TooLong self.now.path) }
    {
        Ok(Refusal::TooLong(self.path.copied(alloc)?))
    }
}

// One cursor for each item, with its path.
fn item_cursors<'v>(
    alloc: Global,
    path: &Path,
    items: &'v [Value],
) -> Result<Vec<Cursor<'v>>, AllocError>
    ensures { IfOk result (λ v. map node_of v.items ≡ nodes_from path.now 0 (items_view items.now)) }
{
    let mut cursors = Vec::with_capacity(alloc, items.len())?;
    'items: for (index, value) in items.iter().enumerate() {
        cursors.push(item_at(alloc, path, index, value)?)?;
    }
    Ok(cursors)
}

// One cursor for each member, with its name and path; a map keeps its keys in order.
fn member_cursors<'v>(
    alloc: Global,
    path: &Path,
    members: &'v Map<String, Value>,
) -> Result<Vec<(String, Cursor<'v>)>, AllocError>
    ensures reads { IfOk result (λ v. map named_node v.items ≡ named_from path.now (members_view members.now.entries)) }
    ensures ordered { IsStrictlySortedBy string_cmp (keys_of members.now.entries) }
{
    let mut cursors = Vec::with_capacity(alloc, members.len())?;
    'members: for (name, value) in members.iter() {
        let cursor = Cursor {
            value,
            path: path.member(alloc, name.as_str())?,
        };
        cursors.push((String::from_str(alloc, name.as_str())?, cursor))?;
    }
    Ok(cursors)
}

// The item of that index in the list at that path.
#[inline(always)]
fn item_at<'v>(
    alloc: Global,
    path: &Path,
    index: usize,
    value: &'v Value,
) -> Result<Cursor<'v>, AllocError>
    ensures { IfOk result (λ c. node_of c ≡ record { value = view value.now; path = item_path path.now index }) }
{
    Ok(Cursor {
        value,
        path: path.item(alloc, index)?,
    })
}

// What that item holds.
#[inline(always)]
fn read_item<F: Form>(
    alloc: Global,
    path: &Path,
    index: usize,
    value: &Value,
    form: &F,
) -> Result<F::Value, Refusal>
    ensures { Gives F.seen result (F.of form.now (record { value = view value.now; path = item_path path.now index })) }
{
    form.read(alloc, &item_at(alloc, path, index, value)?)
}

// What each item of the list at that path holds, in order.
fn each_item<F: Form>(
    alloc: Global,
    path: &Path,
    items: &[Value],
    form: F,
) -> Result<Vec<F::Value>, Refusal>
    ensures { Gives (λ v. map F.seen v.items) result (each (F.of form) (nodes_from path.now 0 (items_view items.now))) }
{
    let mut values = Vec::with_capacity(alloc, items.len())?;
    'items: for (index, value) in items.iter().enumerate() {
        let next = read_item(alloc, path, index, value, &form)?;
        values.push(next)?;
    }
    Ok(values)
}
