ghost use Rattle.std.specs.Prelude.{◌≡◌, ◌<◌, IsTrue, option_copied};
ghost use Rattle.gw_match.specs.model.Choice as choice;
ghost use Rattle.gw_decide.specs.ExplainText.{verdict_text};
ghost use Rattle.gw_decide.specs.Seen.{path_fits, seen_verdict};
ghost use Rattle.gw_decide.specs.model.Verdicts as rules;

use gw_frames::Request;
use gw_match::DoorTable;
use gw_route::{Filter, Redirect};
use gw_rows::{Plan, Row};
use gw_text::Steps;
use std::marker::Brand;
use std::sync::ledger::{Blank, Ledger};

/// What becomes of a request.
#[derive(Clone, Copy)]
pub enum Verdict<'t> {
    /// No row serves it.
    NotFound,
    /// This row serves it, and redirects it.
    Redirect(&'t Row),
    /// This row serves it, and sends it nowhere.
    Nothing(&'t Row),
    /// This row serves it, and sends it to one of its backends.
    Choose(&'t Row),
}

impl Verdict<'_> {
    /// Its name.
    pub fn text(&self) -> &'static str
        ensures { result.now ≡ verdict_text (seen_verdict self.now) }
    {
        match self {
            Verdict::NotFound => "NotFound",
            Verdict::Redirect(_) => "Redirect",
            Verdict::Nothing(_) => "Nothing",
            Verdict::Choose(_) => "Choose",
        }
    }
}

/// What becomes of the request at the door.
#[tactic(auto, unfolding(crate::specs::model::Verdicts::verdict_of))]
pub fn decide<'t>(t: &'t DoorTable, request: &Request) -> Verdict<'t>
    ensures value { seen_verdict result ≡ rules.verdict_of t.now request.now }
    ensures path { IsTrue (path_fits (seen_verdict result) request.now) }
{
    match row_at(t, request) {
        Some(row) => verdict_by(row),
        None => Verdict::NotFound,
    }
}

/// The row that serves the request.
pub fn row_at<'t>(t: &'t DoorTable, request: &Request) -> Option<&'t Row>
    ensures { option_copied result ≡ choice.row_at t.now request.now }
{
    found::<Brand>(t, request, Blank::new(1))
}

// Nobody asks for the steps that it takes.
fn found<'t, L: Ledger>(t: &'t DoorTable, request: &Request, blank: Blank) -> Option<&'t Row>
    requires name { blank.name ≡ L.name }
    requires parts { blank.parts ≡ L.parts }
    requires positive { 0 < L.parts }
    ensures { option_copied result ≡ choice.row_at t.now request.now }
{
    let mut steps: Steps<L> = Steps::open(blank);
    t.find(request, &mut steps)
}

fn verdict_by(row: &Row) -> Verdict<'_>
    ensures { seen_verdict result ≡ rules.verdict_by row.now }
{
    if redirect_in(&row.plan).is_some() {
        Verdict::Redirect(row)
    } else if sends_nothing(&row.plan) {
        Verdict::Nothing(row)
    } else {
        Verdict::Choose(row)
    }
}

/// The redirect of a rule.
pub fn redirect_in(plan: &Plan) -> Option<&Redirect>
    ensures { option_copied result ≡ rules.redirect_in plan.now }
{
    'filters: for filter in plan.filters.as_slice() {
        if let Filter::RequestRedirect(redirect) = filter {
            return Some(redirect);
        }
    }
    None
}

fn sends_nothing(plan: &Plan) -> bool
    ensures { result ≡ rules.sends_nothing plan.now }
{
    plan.backends
        .as_slice()
        .iter()
        .all(|backend| backend.weight == 0)
}
