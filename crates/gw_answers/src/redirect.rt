ghost use Rattle.std.specs.Prelude.{◌≡◌, Some, IfOk, IsTrue};
ghost use Rattle.std.specs.Option.{option_map_or};
ghost use Rattle.gw_replies.specs.declared.fault.FaultName.TheVariants.{NoBackend};
ghost use Rattle.gw_text.specs.model.Matches.{path_fits};
ghost use Rattle.gw_decide.specs.model.Verdicts.{redirect_in};
ghost use Rattle.gw_answers.specs.model.Decisions as rules;

use crate::chosen::Chosen;
use crate::decision::{Action, Decision, Reply, replied};
use gw_decide::redirect_in;
use gw_filters::location;
use gw_frames::Request;
use gw_replies::FaultName;
use gw_rows::Row;
use gw_text::NoMemory;
use std::alloc::Global;

/// The code of a redirect that gives none: 302 Found.
const FOUND: u16 = 302;

/// What the redirect of the row's rule comes to.
pub(crate) fn redirect(
    alloc: Global,
    chosen: Chosen,
    row: &Row,
    request: &Request,
) -> Result<Decision, NoMemory>
    requires { IsTrue (path_fits row.now.test.path request.now.path) }
    ensures { IfOk result (λ d. d ≡ option_map_or (rules.redirected chosen row.now request.now) (redirect_in row.now.plan) (rules.replied chosen 500 (Some NoBackend))) }
{
    let Some(redirect) = redirect_in(&row.plan) else {
        return Ok(replied(chosen, 500, Some(FaultName::NoBackend)));
    };
    let location = location(alloc, redirect, &row.test.path, request, row.port)?;
    Ok(Decision {
        chosen,
        action: Action::Reply(Reply {
            code: redirect.status_code.unwrap_or(FOUND),
            location: Some(location),
            fault: None,
        }),
    })
}
