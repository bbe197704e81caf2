//! What a field or an item may hold: a form of its value, by which it is read wherever it stands.
ghost use Rattle.std.specs.Prelude.{map};
ghost use Rattle.gw_json.specs.Words.{Gives};
ghost use Rattle.gw_json.specs.Fields.{node_of, number_of, truth_of};
ghost use Rattle.gw_json.specs.Members.{node_of_member};
ghost use Rattle.gw_json.specs.Presence.{parsed, port_of};

use crate::cursor::Cursor;
use crate::member::{Member, Node};
use crate::refusal::Refusal;
use std::alloc::{AllocError, Global};

/// A form of what a field or an item of a list holds. What reading depends on stands in the form itself.
pub trait Form: Drop {
    ghost use Rattle.std.specs.Prelude.{Result};
    ghost use Rattle.gw_json.specs.Words.{Gives};
    ghost use Rattle.gw_json.specs.Fields.{Node, node_of};
    ghost use Rattle.gw_json.specs.Members.{node_of_member};
    ghost use Rattle.gw_json.specs.declared.refusal.Refusal.{Refusal};

    type Value: Drop;

    /// What a value stands for.
    ghost Seen: { Type 0 } = { Self.Value };

    ghost seen: { Self.Value → Seen };

    /// What is read there.
    ghost of: { Self → Node → Result Seen Refusal };

    fn read(&self, alloc: Global, at: &Cursor<'_>) -> Result<Self::Value, Refusal>
        ensures { Gives seen result (of self.now (node_of at.now)) };

    /// The same at a field whose path isn't written yet, and is written here unless the form can do without.
    fn read_field(&self, alloc: Global, at: &Member<'_, '_>) -> Result<Self::Value, Refusal>
        ensures { Gives seen result (of self.now (node_of_member at.now)) }
    {
        self.read(alloc, &at.cursor(alloc)?)
    }
}

/// A form of a text: at most so many bytes, and then what the text gives.
pub trait TextForm: Drop {
    ghost use Rattle.std.specs.Prelude.{◌≡◌, ℕ, List, Option, IfOk};

    type Value: Drop;

    /// The most bytes.
    ghost most: { Self → ℕ };

    /// What a text gives; one that gives nothing isn't of the form.
    ghost value: { Self → List ℕ → Option Self.Value };

    fn most(&self) -> usize
        ensures { result ≡ most self.now };

    fn value(&self, alloc: Global, text: &str) -> Result<Option<Self::Value>, AllocError>
        ensures { IfOk result (λ found. found ≡ value self.now text.now) };
}

// What the text gives that stands there.
#[tactic(auto, unfolding(crate::specs::Presence::parsed))]
#[inline(always)]
fn read_text<F: TextForm, N: Node>(alloc: Global, form: &F, at: &N) -> Result<F::Value, Refusal>
    ensures { Gives (λ value. value) result (parsed (F.most form.now) (F.value form.now) (N.node at.now)) }
{
    match form.value(alloc, at.text_in(alloc, form.most())?)? {
        Some(value) => Ok(value),
        None => Err(at.bad_value(alloc)?),
    }
}

impl<F: TextForm> Form for F {
    type Value = F::Value;

    ghost seen = { λ value. value };

    ghost of = { λ form. parsed (F.most form) (F.value form) };

    fn read(&self, alloc: Global, at: &Cursor<'_>) -> Result<F::Value, Refusal> {
        read_text(alloc, self, at)
    }

    fn read_field(&self, alloc: Global, at: &Member<'_, '_>) -> Result<F::Value, Refusal> {
        read_text(alloc, self, at)
    }
}

/// A whole number from `least` to `most`.
#[derive(Clone, Copy)]
pub struct Number16 {
    pub least: u16,
    pub most: u16,
}

impl Form for Number16 {
    type Value = u16;

    ghost seen = { λ value. value };

    ghost of = { λ form. number_of form.least form.most };

    fn read(&self, alloc: Global, at: &Cursor<'_>) -> Result<u16, Refusal> {
        Ok(at.number(alloc, u64::from(self.least), u64::from(self.most))? as u16)
    }
}

/// A whole number from `least` to `most`.
#[derive(Clone, Copy)]
pub struct Number32 {
    pub least: u32,
    pub most: u32,
}

impl Form for Number32 {
    type Value = u32;

    ghost seen = { λ value. value };

    ghost of = { λ form. number_of form.least form.most };

    fn read(&self, alloc: Global, at: &Cursor<'_>) -> Result<u32, Refusal> {
        Ok(at.number(alloc, u64::from(self.least), u64::from(self.most))? as u32)
    }
}

/// A whole number from `least` to `most`.
#[derive(Clone, Copy)]
pub struct Number64 {
    pub least: u64,
    pub most: u64,
}

impl Form for Number64 {
    type Value = u64;

    ghost seen = { λ value. value };

    ghost of = { λ form. number_of form.least form.most };

    fn read(&self, alloc: Global, at: &Cursor<'_>) -> Result<u64, Refusal> {
        at.number(alloc, self.least, self.most)
    }
}

/// True or false.
#[derive(Clone, Copy)]
pub struct Truth;

impl Form for Truth {
    type Value = bool;

    ghost seen = { λ value. value };

    ghost of = { λ _. truth_of };

    fn read(&self, alloc: Global, at: &Cursor<'_>) -> Result<bool, Refusal> {
        at.truth(alloc)
    }
}

/// The number of a port.
#[derive(Clone, Copy)]
pub struct Port;

impl Form for Port {
    type Value = u16;

    ghost seen = { λ value. value };

    ghost of = { λ _. port_of };

    fn read(&self, alloc: Global, at: &Cursor<'_>) -> Result<u16, Refusal> {
        at.port(alloc)
    }
}
