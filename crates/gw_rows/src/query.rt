//! What matches ask of the parameters of a query.
ghost use Rattle.std.specs.Prelude.{◌≡◌, ◌||◌, length};
ghost use Rattle.std.specs.List.{list_all, list_any};
ghost use Rattle.gw_rows.specs.model.Fitting as rules;

use crate::counted::one_unless;
use gw_query::Parameters;
use gw_route::QueryParamMatch;
use gw_text::ValueMatchType;

fn value_fits(value: &[u8], asked: &QueryParamMatch) -> bool
    ensures { result ≡ rules.value_fits asked.now.sort asked.now.value value.now }
{
    match &asked.sort {
        ValueMatchType::Exact => value == asked.value.bytes(),
        ValueMatchType::Other(_) => false,
    }
}

fn query_param_fits(query: &Parameters, asked: &QueryParamMatch) -> bool
    ensures { result ≡ rules.query_param_fits query.now asked.now }
{
    match query.first_value(&asked.name) {
        Some(value) => value_fits(value, asked),
        None => false,
    }
}

// Whether an earlier match has the same name.
fn is_repeated(before: &[QueryParamMatch], asked: &QueryParamMatch) -> bool
    ensures { result ≡ list_any (λ q. rules.same_query_param q asked.now) before.now }
{
    before.iter().any(|other| other.name == asked.name)
}

/// How many of these matches count.
pub fn count(matches: &[QueryParamMatch]) -> usize
    ensures { result ≡ length (rules.counted_query_params matches.now) }
{
    let mut count = 0;
    'matches: for (index, asked) in matches.iter().enumerate() {
        count += one_unless(is_repeated(&matches[..index], asked));
    }
    count
}

// Whether a match holds, or is repeated: only where it doesn't hold are those before it looked at.
fn holds(before: &[QueryParamMatch], asked: &QueryParamMatch, query: &Parameters) -> bool
    ensures { result ≡ (rules.query_param_fits query.now asked.now || list_any (λ q. rules.same_query_param q asked.now) before.now) }
{
    query_param_fits(query, asked) || is_repeated(before, asked)
}

/// Whether the parameters of a query are as all these matches ask.
pub fn query_fits(matches: &[QueryParamMatch], query: &Parameters) -> bool
    ensures { result ≡ list_all (rules.query_param_fits query.now) (rules.counted_query_params matches.now) }
{
    'matches: for (index, asked) in matches.iter().enumerate() {
        if !holds(&matches[..index], asked, query) {
            return false;
        }
    }
    true
}
