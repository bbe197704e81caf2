ghost use Rattle.std.specs.Prelude.{[], map};
ghost use Rattle.gw_json.specs.Words.{Gives, each};
ghost use Rattle.gw_json.specs.Fields.{node_of, named_node};
ghost use Rattle.gw_forms.specs.Forms as forms;
ghost use Rattle.gw_objects.specs.Labels as labels;

use gw_forms as forms;
use gw_json::{Cursor, Form, Refusal};
use gw_labels::Labels;
use std::alloc::Global;

/// A word where it stands, without a copy.
#[tactic(auto, unfolding(gw_json::specs::Presence::parsed))]
pub fn word_in<'v>(alloc: Global, at: &Cursor<'v>) -> Result<&'v str, Refusal>
    ensures { Gives (λ word. word.now) result (forms.word (node_of at.now)) }
{
    at.text_in(alloc, forms::Word.limit())
}

/// An object of words, as a map.
#[derive(Clone, Copy)]
pub struct WordsForm;

impl Form for WordsForm {
    type Value = Labels;

    ghost seen = { λ value. value };

    ghost of = { λ _. labels.words_of };

    #[tactic(auto, unfolding(crate::specs::Labels::words_of))]
    fn read(&self, alloc: Global, at: &Cursor<'_>) -> Result<Labels, Refusal> {
        map_of(alloc, at.members(alloc)?.as_slice())
    }
}

#[tactic(auto, unfolding(crate::specs::Labels::label_of))]
fn map_of(alloc: Global, members: &[(String, Cursor<'_>)]) -> Result<Labels, Refusal>
    ensures { Gives (λ x. x) result (labels.mapped_on [] (each labels.label_of (map named_node members.now))) }
{
    let mut map = Labels::new(alloc);
    'members: for member in members {
        map.put(member.0.as_str(), word_in(alloc, &member.1)?)?;
    }
    Ok(map)
}

/// The labels of the object.
#[tactic(auto, unfolding(crate::specs::Labels::labels_of))]
pub fn read_labels(alloc: Global, at: &Cursor<'_>) -> Result<Labels, Refusal>
    ensures { Gives (λ x. x) result (labels.labels_of (node_of at.now)) }
{
    let metadata = at.need_object(alloc, "metadata")?;
    metadata.defaulted(alloc, "labels", WordsForm, Labels::new(alloc))
}
