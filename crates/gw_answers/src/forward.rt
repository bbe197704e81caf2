ghost use Rattle.std.specs.Prelude.{◌≡◌, ◌++◌, List, IfOk, IsTrue, option_copied, option_to_list, unwrap_or};
ghost use Rattle.gw_text.specs.model.Fields.{Field};
ghost use Rattle.gw_text.specs.model.Matches.{path_fits};
ghost use Rattle.gw_filters.specs.model.Locations.{host_of, target_of};
ghost use Rattle.gw_replies.specs.model.Hops.{passed_on};
ghost use Rattle.gw_replies.specs.model.Written.{forward};
ghost use Rattle.gw_answers.specs.model.Messages as rules;

use crate::edits::edit_by;
use gw_filters::{effective, rewrite};
use gw_frames::Request;
use gw_replies::{passed_on, write_forward, write_unedited_forward};
use gw_route::{Edits, Filter, PathMatch, Rewrite, request_edits_in};
use gw_rows::{Backend, Plan};
use gw_text::{NoMemory, Text};
use std::alloc::Global;

/// The bytes of the request as the backend that was drawn is sent it.
#[tactic(auto, unfolding(crate::specs::model::Messages::forward_of))]
pub(crate) fn write_forwarded(
    alloc: Global,
    plan: &Plan,
    backend: &Backend,
    test: &PathMatch,
    request: &Request,
) -> Result<Text, NoMemory>
    requires { IsTrue (path_fits test.now request.now.path) }
    ensures { IfOk result (λ text. text ≡ rules.forward_of plan.now backend.now test.now request.now) }
{
    let (target, host) = rewritten(alloc, plan, test, request)?;
    write_to(
        alloc,
        request_edits_of(plan, backend),
        &target,
        &host,
        request,
    )
}

// The edits of the rule, and of the backendRef, as far as they change something.
fn request_edits_of<'p>(
    plan: &'p Plan,
    backend: &'p Backend,
) -> (Option<&'p Edits>, Option<&'p Edits>)
    ensures { (fields : List Field) → rules.edited_by (option_to_list (option_copied result.0) ++ option_to_list (option_copied result.1)) fields
        ≡ rules.edited_by (rules.request_edits_of plan.now backend.now) fields }
{
    (
        request_edits_in(plan.filters.as_slice()),
        effective(&backend.request),
    )
}

// The bytes of the request to this target and host, with its fields after the edits.
fn write_to(
    alloc: Global,
    both: (Option<&Edits>, Option<&Edits>),
    target: &Text,
    host: &Text,
    request: &Request,
) -> Result<Text, NoMemory>
    ensures { IfOk result (λ text. text ≡ forward request.now.method target.now host.now request.now.minor
        (rules.edited_by (option_to_list (option_copied both.entry.0) ++ option_to_list (option_copied both.entry.1)) (passed_on request.now.fields)) request.now.body request.now.framed) }
{
    match both {
        (None, None) => write_unedited_forward(
            alloc,
            &request.method,
            target,
            host,
            request.minor,
            &request.fields,
            &request.body,
            request.framed,
        ),
        _ => write_forward(
            alloc,
            &request.method,
            target,
            host,
            request.minor,
            &edit_by(alloc, passed_on(alloc, &request.fields)?, both)?,
            &request.body,
            request.framed,
        ),
    }
}

// The target and the host after the rule's rewrite.
fn rewritten(
    alloc: Global,
    plan: &Plan,
    test: &PathMatch,
    request: &Request,
) -> Result<(Text, Text), NoMemory>
    requires { IsTrue (path_fits test.now request.now.path) }
    ensures { IfOk result (λ r. (r.0 ≡ target_of (unwrap_or (rules.rewrite_in plan.now) rules.nothing_rewritten) test.now request.now)
        × (r.1 ≡ host_of (unwrap_or (rules.rewrite_in plan.now) rules.nothing_rewritten) request.now)) }
{
    match rewrite_in(plan) {
        Some(by) => rewrite(alloc, by, test, request),
        None => {
            let nothing = Rewrite {
                hostname: None,
                path: None,
            };
            rewrite(alloc, &nothing, test, request)
        }
    }
}

fn rewrite_in(plan: &Plan) -> Option<&Rewrite>
    ensures { option_copied result ≡ rules.rewrite_in plan.now }
{
    'filters: for filter in plan.filters.as_slice() {
        if let Filter::UrlRewrite(rewrite) = filter {
            return Some(rewrite);
        }
    }
    None
}
