ghost use Rattle.std.specs.Prelude.{◌≡◌, ◌||◌, ℕ, List, [], drop, Some, None, is_some, IfOk, IfSome, IsTrue, if◌then◌else◌};
ghost use Rattle.std.specs.List.{list_all, slice_split};
ghost use Rattle.gw_text.specs.Parsing.{Parses};
ghost use Rattle.gw_text.specs.declared.name.TextFault.TheVariants.{NoMemory as Starved};
ghost use Rattle.gw_text.specs.model.Forms as forms;

use crate::text::Text;
use std::alloc::{AllocError, AllocFailed, Global};
use std::marker::Model;
use std::ops::Deref;

/// Why a text gave no value.
#[derive(Clone, Copy, Debug, PartialEq, Eq)]
pub enum TextFault {
    /// The text isn't of the form.
    Bad,
    NoMemory,
}

impl From<AllocError> for TextFault {
    ghost from_gives = { λ _ e. e ≡ Starved };

    fn from(_e: AllocError) -> TextFault {
        TextFault::NoMemory
    }
}

impl<T: Drop> From<AllocFailed<T>> for TextFault {
    ghost from_gives = { λ _ e. e ≡ Starved };

    fn from(_e: AllocFailed<T>) -> TextFault {
        TextFault::NoMemory
    }
}

/// The name of an object.
#[derive(Drop)]
pub struct Name {
    text: Text,
}

impl Model for Name {
    ghost Value = { List ℕ };

    ghost view = { λ n. n.text };

    ghost invariant = { λ n. IsTrue (forms.is_name n.text) };
}

impl Name {
    /// The name, if the text is the name of an object.
    pub fn parse(alloc: Global, s: &str) -> Result<Self, TextFault>
        ensures { Parses (forms.name_of s.now) result }
    {
        if !is_name(s.as_bytes()) {
            return Err(TextFault::Bad);
        }
        let text = Text::of(alloc, s)?;
        Ok(Name { text })
    }

    /// The name that a text is, if it is the name of an object.
    pub fn of_text(text: Text) -> Option<Self>
        ensures { result ≡ forms.name_of text }
    {
        if is_name(text.bytes()) {
            Some(Name { text })
        } else {
            None
        }
    }

    /// The name as a text.
    pub fn text(&self) -> &Text
        ensures value { result.now ≡ self.now }
        ensures form { IsTrue (forms.is_name self.now) }
    {
        &self.text
    }

    /// The text alone, without a copy.
    pub fn into_text(self) -> Text
        ensures value { result ≡ self }
        ensures form { IsTrue (forms.is_name self) }
    {
        self.text
    }

    /// The same name once more.
    pub fn copy(&self, alloc: Global) -> Result<Self, AllocError>
        ensures { IfOk result (λ name. name ≡ self.now) }
    {
        let text = self.text.copy(alloc)?;
        Ok(Name { text })
    }
}

impl Deref for Name {
    type Target = Text;

    ghost deref_gives = { λ x y. y ≡ x };

    fn deref(&self) -> &Text {
        &self.text
    }
}

/// The name of a namespace, or nothing, for objects of kinds without one.
#[derive(Drop)]
pub struct NamespaceName {
    text: Text,
}

impl Model for NamespaceName {
    ghost Value = { List ℕ };

    ghost view = { λ n. n.text };

    ghost invariant = { λ n. IsTrue (forms.is_namespace_or_none n.text) };
}

impl NamespaceName {
    /// The name, if the text is the name of a namespace.
    pub fn parse(alloc: Global, s: &str) -> Result<Self, TextFault>
        ensures { Parses (forms.namespace_of s.now) result }
    {
        if !is_namespace(s.as_bytes()) {
            return Err(TextFault::Bad);
        }
        let text = Text::of(alloc, s)?;
        Ok(NamespaceName { text })
    }

    /// No namespace.
    pub fn none(alloc: Global) -> Self
        ensures { result ≡ [] }
    {
        NamespaceName {
            text: Text::from_vec(Vec::new(alloc)),
        }
    }

    /// The namespace that a text is. No public call makes one from an unread text.
    pub(crate) fn of_text(text: Text) -> Self
        requires { IsTrue (forms.is_namespace_or_none text) }
        ensures { result ≡ text }
    {
        NamespaceName { text }
    }

    /// The text alone, without a copy.
    pub fn into_text(self) -> Text
        ensures value { result ≡ self }
        ensures form { IsTrue (forms.is_namespace_or_none self) }
    {
        self.text
    }

    /// The same name once more.
    pub fn copy(&self, alloc: Global) -> Result<Self, AllocError>
        ensures { IfOk result (λ name. name ≡ self.now) }
    {
        let text = self.text.copy(alloc)?;
        Ok(NamespaceName { text })
    }
}

impl Deref for NamespaceName {
    type Target = Text;

    ghost deref_gives = { λ x y. y ≡ x };

    fn deref(&self) -> &Text {
        &self.text
    }
}

fn is_alphanumeric(b: u8) -> bool
    ensures { result ≡ forms.is_alphanumeric b }
{
    b.is_ascii_lowercase() || b.is_ascii_digit()
}

fn has_alphanumeric_ends(text: &[u8]) -> bool
    ensures { result ≡ forms.has_alphanumeric_ends text.now }
{
    match (text.first(), text.last()) {
        (Some(first), Some(last)) => is_alphanumeric(*first) && is_alphanumeric(*last),
        _ => false,
    }
}

fn is_label_byte(b: u8) -> bool
    ensures { result ≡ forms.is_label_byte b }
{
    is_alphanumeric(b) || b == b'-'
}

fn are_name_bytes(text: &[u8]) -> bool
    ensures { result ≡ list_all (λ b. forms.is_label_byte b || forms.is_dot b) text.now }
{
    text.iter().all(|b| is_label_byte(*b) || *b == b'.')
}

fn are_label_bytes(text: &[u8]) -> bool
    ensures { result ≡ list_all forms.is_label_byte text.now }
{
    text.iter().all(|b| is_label_byte(*b))
}

/// Whether the text may be the name of an object: an RFC 1123 subdomain.
pub fn is_name(text: &[u8]) -> bool
    ensures { result ≡ forms.is_name text.now }
{
    text.len() <= 253 && are_name_bytes(text) && has_alphanumeric_ends(text)
}

fn is_label(text: &[u8]) -> bool
    ensures { result ≡ forms.is_label text.now }
{
    text.len() <= 63 && are_label_bytes(text) && has_alphanumeric_ends(text)
}

/// Whether the text may be the name of a namespace: an RFC 1123 label.
pub fn is_namespace(text: &[u8]) -> bool
    ensures { result ≡ forms.is_namespace text.now }
{
    is_label(text)
}

fn are_labels(text: &[u8]) -> bool
    ensures { result ≡ list_all forms.is_label (slice_split forms.is_dot text.now) }
{
    text.split(|b| *b == b'.').all(is_label)
}

/// Whether the text is a hostname without a wildcard: a PreciseHostname of the Gateway API.
pub fn is_precise_hostname(text: &[u8]) -> bool
    ensures { result ≡ forms.is_precise_hostname text.now }
{
    text.len() <= 253 && are_labels(text)
}

/// What stands after the `*.` of a wildcard, and `None` if the text isn't one.
pub(crate) fn wildcard_rest(text: &[u8]) -> Option<&[u8]>
    ensures wildcard { is_some result ≡ forms.is_wildcard text.now }
    ensures rest { IfSome result (λ rest. rest.now ≡ drop 2 text.now) }
{
    if text.len() > 253 {
        return None;
    }
    let rest = text.strip_prefix(b"*.")?;
    if is_precise_hostname(rest) {
        Some(rest)
    } else {
        None
    }
}

/// Whether the text is a hostname, `*.` in front or not: a Hostname of the Gateway API.
pub fn is_hostname(text: &[u8]) -> bool
    ensures { result ≡ forms.is_hostname text.now }
{
    is_precise_hostname(text) || wildcard_rest(text).is_some()
}
