ghost use Rattle.std.specs.Prelude.{[], map};
ghost use Rattle.gw_json.specs.Words.{Gives, each};
ghost use Rattle.gw_json.specs.Fields.{node_of, named_node};
ghost use Rattle.gw_json.specs.Presence.{any_length};
ghost use Rattle.gw_forms.specs.Forms as forms;
ghost use Rattle.gw_objects.specs.Selectors as selectors;

use crate::fields::{MATCH_EXPRESSIONS, MATCH_LABELS};
use crate::labels::word_in;
use gw_json::{Cursor, Form, Refusal, TextForm};
use gw_labels::{Labels, Op, Requirement, Selector};
use std::alloc::{AllocError, Global};

/// The members of matchLabels.
#[derive(Clone, Copy)]
struct MatchLabelsForm;

impl Form for MatchLabelsForm {
    type Value = Vec<Requirement>;

    ghost use Rattle.std.specs.Prelude.{List};
    ghost use Rattle.gw_labels.specs.Selectors.{Requirement as Plain};

    ghost Seen = { List Plain };

    ghost seen = { λ v. v.items };

    ghost of = { λ _. selectors.match_labels_of };

    #[tactic(auto, unfolding(crate::specs::Selectors::match_labels_of))]
    fn read(&self, alloc: Global, at: &Cursor<'_>) -> Result<Vec<Requirement>, Refusal> {
        each_label(alloc, at.members(alloc)?.as_slice())
    }
}

#[tactic(auto, unfolding(crate::specs::Selectors::label_requirement_of))]
fn label_requirement(alloc: Global, member: &(String, Cursor<'_>)) -> Result<Requirement, Refusal>
    ensures { Gives (λ x. x) result (selectors.label_requirement_of (named_node member.now)) }
{
    let mut value = Labels::new(alloc);
    value.put(word_in(alloc, &member.1)?, "")?;
    Ok(Requirement::new(alloc, member.0.as_str(), Op::In, &value)?)
}

fn each_label(alloc: Global, members: &[(String, Cursor<'_>)]) -> Result<Vec<Requirement>, Refusal>
    ensures { Gives (λ v. v.items) result (each selectors.label_requirement_of (map named_node members.now)) }
{
    let mut needs = Vec::with_capacity(alloc, members.len())?;
    'members: for member in members {
        needs.push(label_requirement(alloc, member)?)?;
    }
    Ok(needs)
}

/// The operator of a requirement.
#[derive(Clone, Copy)]
struct OpName;

impl TextForm for OpName {
    type Value = Op;

    ghost most = { λ _. any_length };

    ghost value = { λ _. selectors.named_op };

    fn most(&self) -> usize {
        usize::MAX
    }

    #[tactic(auto, unfolding(crate::specs::Selectors::named_op))]
    fn value(&self, _alloc: Global, text: &str) -> Result<Option<Op>, AllocError> {
        match text {
            "In" => Ok(Some(Op::In)),
            "NotIn" => Ok(Some(Op::NotIn)),
            "Exists" => Ok(Some(Op::Exists)),
            "DoesNotExist" => Ok(Some(Op::DoesNotExist)),
            _ => Ok(None),
        }
    }
}

/// The values of a requirement, as the keys of a map.
#[derive(Clone, Copy)]
struct ValuesForm;

impl Form for ValuesForm {
    type Value = Labels;

    ghost seen = { λ value. value };

    ghost of = { λ _. selectors.values_of };

    #[tactic(auto, unfolding(crate::specs::Selectors::values_of))]
    fn read(&self, alloc: Global, at: &Cursor<'_>) -> Result<Labels, Refusal> {
        value_set(alloc, at.items(alloc, 64)?.as_slice())
    }
}

fn value_set(alloc: Global, nodes: &[Cursor<'_>]) -> Result<Labels, Refusal>
    ensures { Gives (λ x. x) result (selectors.gathered_on [] (each forms.word (map node_of nodes.now))) }
{
    let mut set = Labels::new(alloc);
    'nodes: for node in nodes {
        set.put(word_in(alloc, node)?, "")?;
    }
    Ok(set)
}

/// An item of matchExpressions.
#[derive(Clone, Copy)]
struct ExpressionForm;

impl Form for ExpressionForm {
    type Value = Requirement;

    ghost seen = { λ value. value };

    ghost of = { λ _. selectors.expression_of };

    #[tactic(auto, unfolding(crate::specs::Selectors::expression_of, gw_json::specs::Presence::needed))]
    fn read(&self, alloc: Global, at: &Cursor<'_>) -> Result<Requirement, Refusal> {
        let key = word_in(alloc, &at.need(alloc, "key")?)?;
        let op = at.needed(alloc, "operator", OpName)?;
        let values = at.defaulted(alloc, "values", ValuesForm, Labels::new(alloc))?;
        Ok(Requirement::new(alloc, key, op, &values)?)
    }
}

/// A selector of labels: the requirements of matchLabels, then those of matchExpressions.
#[derive(Clone, Copy)]
pub struct SelectorForm;

impl Form for SelectorForm {
    type Value = Selector;

    ghost seen = { λ value. value };

    ghost of = { λ _. selectors.selector_of };

    #[tactic(auto, unfolding(crate::specs::Selectors::selector_of))]
    fn read(&self, alloc: Global, at: &Cursor<'_>) -> Result<Selector, Refusal> {
        let mut needs = at.defaulted(alloc, MATCH_LABELS, MatchLabelsForm, Vec::new(alloc))?;
        let mut expressions = at.listed(alloc, MATCH_EXPRESSIONS, 64, ExpressionForm)?;
        needs.append(&mut expressions)?;
        Ok(Selector::of(alloc, needs))
    }
}
