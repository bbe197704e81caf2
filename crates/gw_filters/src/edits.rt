ghost use Rattle.std.specs.Prelude.{◌≡◌, [], ◌∷◌, ◌++◌, List, codes, filter, not, ◌&&◌, true, Some, IfOk, OnOk, option_copied};
ghost use Rattle.std.specs.List.{list_any};
ghost use Rattle.std.specs.Option.{option_map_or};
ghost use Rattle.gw_text.specs.model.Fields.{Field, same_field_name};
ghost use Rattle.gw_text.specs.model.Filters.{Edits, no_edits};
ghost use Rattle.gw_messages.specs.model.Values.{has_field};
ghost use Rattle.gw_filters.specs.Laws.{HasEachSet, HasNoRemoved, KeepsOthers};
ghost use Rattle.gw_filters.specs.model.Editing.{added_to, edited, first_entries, is_apart_from, is_new_to, is_set_cookie, joined, set_behind, set_field, value_for, with_added, with_removed, with_set};

use gw_messages::field::has_field;
use gw_route::Edits;
use gw_text::{Field, Fields, NoMemory, Text};
use std::alloc::Global;

/// The fields after edits: first what is set, then what is added, then what is removed.
#[tactic(auto, unfolding(crate::specs::model::Editing::edited))]
pub fn edit(alloc: Global, fields: &Fields, by: &Edits) -> Result<Fields, NoMemory>
    ensures value { IfOk result (λ all. all ≡ edited by.now fields.now) }
    ensures others { IfOk result (λ all. KeepsOthers by.now fields.now all) }
    ensures set { IfOk result (λ all. HasEachSet by.now all) }
    ensures removed { IfOk result (λ all. HasNoRemoved by.now all) }
    ensures nothing { by.now ≡ no_edits → IfOk result (λ all. all ≡ fields.now) }
{
    let set = with_set(alloc, fields.as_slice(), by.set.as_slice())?;
    let added = with_added(alloc, set.as_slice(), by.add.as_slice())?;
    with_removed(alloc, added.as_slice(), by.remove.as_slice())
}

/// The edits, or none if they change nothing.
pub fn effective(edits: &Edits) -> Option<&Edits>
    ensures { (fields : List Field) → option_map_or (λ (e : Edits). edited e fields) (option_copied result) fields ≡ edited edits.now fields }
{
    if is_empty(edits) { None } else { Some(edits) }
}

fn is_empty(edits: &Edits) -> bool
    ensures { result ≡ true → edits.now ≡ no_edits }
{
    edits.set.as_slice().is_empty()
        && edits.add.as_slice().is_empty()
        && edits.remove.as_slice().is_empty()
}

fn with_set(alloc: Global, fields: &[Field], entries: &[Field]) -> Result<Fields, NoMemory>
    ensures { IfOk result (λ set. set ≡ with_set entries.now fields.now) }
{
    let mut set = set_in_place(alloc, fields, entries)?;
    append_new(alloc, &mut set, fields, entries)?;
    Ok(set)
}

fn set_in_place(alloc: Global, fields: &[Field], entries: &[Field]) -> Result<Fields, NoMemory>
    ensures { IfOk result (λ set. set ≡ set_behind entries.now [] fields.now) }
{
    let mut set = Fields::new(alloc);
    'fields: for (index, field) in fields.iter().enumerate() {
        push_set(alloc, &mut set, &fields[..index], field, entries)?;
    }
    Ok(set)
}

fn push_set(
    alloc: Global,
    set: &mut Fields,
    before: &[Field],
    field: &Field,
    entries: &[Field],
) -> Result<(), NoMemory>
    ensures { OnOk result (set.new ≡ set.old ++ set_field field.now (value_for entries.now field.now.name) (not (has_field field.now.name before.now))) }
{
    match value_for(entries, &field.name) {
        None => set.push(field.copy(alloc)?),
        Some(value) => push_first(alloc, set, before, &field.name, value),
    }
}

// The value, where no field of this name stands before it.
fn push_first(
    alloc: Global,
    set: &mut Fields,
    before: &[Field],
    name: &Text,
    value: &Text,
) -> Result<(), NoMemory>
    ensures { OnOk result (set.new ≡ set.old ++ filter (is_new_to before.now) (record { name = name.now; value = value.now } ∷ [])) }
{
    if has_field(before, name.bytes()) {
        return Ok(());
    }
    set.push(Field {
        name: name.copy(alloc)?,
        value: value.copy(alloc)?,
    })
}

// The value of the first entry of this name.
fn value_for<'e>(entries: &'e [Field], name: &Text) -> Option<&'e Text>
    ensures { option_copied result ≡ value_for entries.now name.now }
{
    'entries: for entry in entries {
        if entry.is_named(name.bytes()) {
            return Some(&entry.value);
        }
    }
    None
}

// The first entries of their names that the fields don't have.
fn append_new(
    alloc: Global,
    set: &mut Fields,
    fields: &[Field],
    entries: &[Field],
) -> Result<(), NoMemory>
    ensures { OnOk result (set.new ≡ set.old ++ filter (is_new_to fields.now) (first_entries entries.now)) }
{
    'entries: for (index, entry) in entries.iter().enumerate() {
        push_new(alloc, set, fields, &entries[..index], entry)?;
    }
    Ok(())
}

fn push_new(
    alloc: Global,
    set: &mut Fields,
    fields: &[Field],
    before: &[Field],
    entry: &Field,
) -> Result<(), NoMemory>
    ensures { OnOk result (set.new ≡ set.old ++ filter (is_new_to fields.now) (filter (is_new_to before.now) (entry.now ∷ []))) }
{
    if has_field(before, entry.name.bytes()) {
        return Ok(());
    }
    push_first(alloc, set, fields, &entry.name, &entry.value)
}

fn with_added(alloc: Global, fields: &[Field], entries: &[Field]) -> Result<Fields, NoMemory>
    ensures { IfOk result (λ added. added ≡ with_added entries.now fields.now) }
{
    let mut added = add_in_place(alloc, fields, entries)?;
    append_apart(alloc, &mut added, fields, entries)?;
    Ok(added)
}

fn add_in_place(alloc: Global, fields: &[Field], entries: &[Field]) -> Result<Fields, NoMemory>
    ensures { IfOk result (λ added. added ≡ added_to entries.now fields.now) }
{
    let mut added = Fields::new(alloc);
    'fields: for (index, field) in fields.iter().enumerate() {
        added.push(joined(alloc, field, &fields[index + 1..], entries)?)?;
    }
    Ok(added)
}

fn joined(
    alloc: Global,
    field: &Field,
    after: &[Field],
    entries: &[Field],
) -> Result<Field, NoMemory>
    ensures { IfOk result (λ f. f ≡ joined field.now (value_for entries.now field.now.name) (not (has_field field.now.name after.now) && not (is_set_cookie field.now.name))) }
{
    match value_for(entries, &field.name) {
        None => field.copy(alloc),
        Some(value) => joined_last(alloc, field, after, value),
    }
}

// The field with the value behind its own, where it is the last one of its name and may have commas.
fn joined_last(
    alloc: Global,
    field: &Field,
    after: &[Field],
    value: &Text,
) -> Result<Field, NoMemory>
    ensures { IfOk result (λ f. f ≡ joined field.now (Some value.now) (not (has_field field.now.name after.now) && not (is_set_cookie field.now.name))) }
{
    if has_field(after, field.name.bytes()) {
        return field.copy(alloc);
    }
    if is_set_cookie(&field.name) {
        return field.copy(alloc);
    }
    Ok(Field {
        name: field.name.copy(alloc)?,
        value: with_comma(alloc, &field.value, value)?,
    })
}

fn with_comma(alloc: Global, first: &Text, second: &Text) -> Result<Text, NoMemory>
    ensures { IfOk result (λ text. text ≡ first.now ++ codes "," ++ second.now) }
{
    let mut text = Vec::new(alloc);
    text.extend_from_slice(first.bytes())?;
    text.push(b',')?;
    text.extend_from_slice(second.bytes())?;
    Ok(Text::from_vec(text))
}

fn is_set_cookie(name: &Text) -> bool
    ensures { result ≡ is_set_cookie name.now }
{
    name.bytes().eq_ignore_ascii_case(b"set-cookie")
}

// The first entries of their names whose values no field takes.
fn append_apart(
    alloc: Global,
    added: &mut Fields,
    fields: &[Field],
    entries: &[Field],
) -> Result<(), NoMemory>
    ensures { OnOk result (added.new ≡ added.old ++ filter (is_apart_from fields.now) (first_entries entries.now)) }
{
    'entries: for (index, entry) in entries.iter().enumerate() {
        push_apart(alloc, added, fields, &entries[..index], entry)?;
    }
    Ok(())
}

fn push_apart(
    alloc: Global,
    added: &mut Fields,
    fields: &[Field],
    before: &[Field],
    entry: &Field,
) -> Result<(), NoMemory>
    ensures { OnOk result (added.new ≡ added.old ++ filter (is_apart_from fields.now) (filter (is_new_to before.now) (entry.now ∷ []))) }
{
    if is_set_cookie(&entry.name) {
        return push_first(alloc, added, before, &entry.name, &entry.value);
    }
    push_new(alloc, added, fields, before, entry)
}

fn with_removed(alloc: Global, fields: &[Field], names: &[Text]) -> Result<Fields, NoMemory>
    ensures { IfOk result (λ rest. rest ≡ with_removed names.now fields.now) }
{
    let mut rest = Fields::new(alloc);
    'fields: for field in fields {
        push_unnamed(alloc, &mut rest, field, names)?;
    }
    Ok(rest)
}

fn push_unnamed(
    alloc: Global,
    rest: &mut Fields,
    field: &Field,
    names: &[Text],
) -> Result<(), NoMemory>
    ensures { OnOk result (rest.new ≡ rest.old ++ with_removed names.now (field.now ∷ [])) }
{
    if is_one_of(names, field) {
        return Ok(());
    }
    rest.push(field.copy(alloc)?)
}

fn is_one_of(names: &[Text], field: &Field) -> bool
    ensures { result ≡ list_any (same_field_name field.now.name) names.now }
{
    names.iter().any(|name| field.is_named(name.bytes()))
}
