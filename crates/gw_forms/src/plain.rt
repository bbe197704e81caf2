//! Texts that are kept as they are.
ghost use Rattle.std.specs.Prelude.{◌≡◌};
ghost use Rattle.gw_json.specs.Words.{Gives};
ghost use Rattle.gw_json.specs.Fields.{node_of};
ghost use Rattle.gw_json.specs.Presence.{needed};
ghost use Rattle.gw_forms.specs.Forms as forms;
ghost use Rattle.gw_forms.specs.Plains as plains;

use crate::predicate::{is_field_name, is_field_value, is_parameter_name, is_path, is_replacement};
use gw_json::{Cursor, Refusal, TextForm};
use gw_text::{Text, is_precise_hostname};
use std::alloc::{AllocError, Global};

/// A form of a text that is kept as it is.
#[derive(Clone, Copy)]
pub enum Plain {
    /// Any text.
    Word,
    /// A hostname without a wildcard.
    PreciseHostname,
    /// The name of a field of an HTTP message.
    Token,
    /// The value of such a field.
    FieldValue,
    /// The path of an Exact or PathPrefix match.
    Path,
    /// The path of a match of another type.
    AnyPath,
    /// What is put in place of a path or of its prefix.
    Replacement,
    /// The name of a query parameter.
    ParameterName,
    /// The value of a query parameter.
    ParameterValue,
}

impl Plain {
    /// The most bytes of a text of this form.
    #[inline(always)]
    pub fn limit(self) -> usize
        ensures { result ≡ plains.limit self }
    {
        match self {
            Plain::Word => 512,
            Plain::PreciseHostname => 253,
            Plain::Token | Plain::ParameterName => 256,
            Plain::FieldValue => 4096,
            Plain::Path | Plain::AnyPath | Plain::Replacement | Plain::ParameterValue => 1024,
        }
    }

    /// Whether the text is of this form, whatever its length where the form says nothing of it.
    #[inline(always)]
    pub fn fits(self, text: &str) -> bool
        ensures { result ≡ plains.fits self text.now }
    {
        match self {
            Plain::Word | Plain::AnyPath | Plain::ParameterValue => true,
            Plain::PreciseHostname => is_precise_hostname(text.as_bytes()),
            Plain::Token => is_field_name(text.as_bytes()),
            Plain::FieldValue => is_field_value(text.as_bytes()),
            Plain::Path => is_path(text),
            Plain::Replacement => is_replacement(text.as_bytes()),
            Plain::ParameterName => is_parameter_name(text.as_bytes()),
        }
    }
}

impl TextForm for Plain {
    type Value = Text;

    ghost most = { plains.limit };

    ghost value = { plains.kept };

    #[inline(always)]
    fn most(&self) -> usize {
        self.limit()
    }

    #[inline(always)]
    fn value(&self, alloc: Global, text: &str) -> Result<Option<Text>, AllocError> {
        if !self.fits(text) {
            return Ok(None);
        }
        Ok(Some(Text::of(alloc, text)?))
    }
}

/// The word in the field of that name, where it stands.
#[tactic(auto, unfolding(gw_json::specs::Presence::needed, gw_json::specs::Presence::parsed))]
pub fn needed_word<'v>(alloc: Global, name: &str, at: &Cursor<'v>) -> Result<&'v str, Refusal>
    ensures { Gives (λ word. word.now) result (needed forms.word name.now (node_of at.now)) }
{
    at.need_text(alloc, name, Plain::Word.limit())
}
