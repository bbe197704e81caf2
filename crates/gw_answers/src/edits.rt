//! The edits of a rule, and then those of the backendRef that was drawn.
ghost use Rattle.std.specs.Prelude.{◌≡◌, ◌++◌, List, IfOk, Some, option_copied, option_to_list, slice_get};
ghost use Rattle.gw_text.specs.model.Fields.{Field};
ghost use Rattle.gw_answers.specs.model.Messages as rules;

use crate::books::Drawn;
use gw_filters::{edit, effective};
use gw_route::{Edits, response_edits_in};
use gw_rows::Plan;
use gw_text::{Fields, NoMemory};
use std::alloc::Global;
use std::marker::Model;
use std::sync::Arc;

/// What is done to the fields of a response: a handle on the rule, and the place of the backendRef that was drawn of it.
#[derive(Drop)]
pub struct ResponseEdits {
    plan: Arc<Plan>,
    place: usize,
}

impl Model for ResponseEdits {
    ghost use Rattle.std.specs.Prelude.{List};
    ghost use Rattle.gw_text.specs.model.Filters.{Edits as Plain};
    ghost use Rattle.gw_answers.specs.model.Messages.{response_edits_at};

    ghost Value = { List Plain };

    ghost view = { λ e. response_edits_at e.plan.value e.place };
}

impl ResponseEdits {
    /// Those of this rule, and of the backendRef that was drawn of it.
    pub(crate) fn of(plan: &Arc<Plan>, drawn: &Drawn<'_>) -> Result<Self, NoMemory>
        requires { slice_get plan.now.value.backends drawn.now.place ≡ Some drawn.now.backend.now }
        ensures { IfOk result (λ edits. edits ≡ rules.response_edits_of plan.now.value drawn.now.backend.now) }
    {
        Ok(ResponseEdits {
            plan: plan.clone()?,
            place: drawn.place,
        })
    }

    // The rule's, and the backendRef's, as far as they change something.
    pub(crate) fn both(&self) -> (Option<&Edits>, Option<&Edits>)
        ensures { (fields : List Field) → rules.edited_by (option_to_list (option_copied result.0) ++ option_to_list (option_copied result.1)) fields ≡ rules.edited_by self.now fields }
    {
        let rule = response_edits_in(self.plan.filters.as_slice());
        let own = match self.plan.backends.as_slice().get(self.place) {
            Some(backend) => effective(&backend.response),
            None => None,
        };
        (rule, own)
    }
}

// The fields after the edits, if there are some.
fn edit_if(alloc: Global, fields: Fields, edits: Option<&Edits>) -> Result<Fields, NoMemory>
    ensures { IfOk result (λ all. all ≡ rules.edited_by (option_to_list (option_copied edits.entry)) fields) }
{
    match edits {
        Some(edits) => edit(alloc, &fields, edits),
        None => Ok(fields),
    }
}

/// The fields after these edits, one after the other.
pub(crate) fn edit_by(
    alloc: Global,
    fields: Fields,
    both: (Option<&Edits>, Option<&Edits>),
) -> Result<Fields, NoMemory>
    ensures { IfOk result (λ all. all ≡ rules.edited_by (option_to_list (option_copied both.entry.0) ++ option_to_list (option_copied both.entry.1)) fields) }
{
    let once = edit_if(alloc, fields, both.0)?;
    edit_if(alloc, once, both.1)
}
