ghost use Rattle.std.specs.Prelude.{◌≡◌, [], IfOk};
ghost use Rattle.gw_route.specs.Matches as matches;

use crate::field_names::QUERY_PARAMS;
use crate::plain::{HeaderMatch, Match, PathMatch, QueryParamMatch};
use gw_forms as forms;
use gw_json::{Cursor, Form, Refusal};
use gw_text::{PathMatchType, Text, ValueMatchType};
use std::alloc::{AllocError, Global};

/// What is asked of a field.
#[derive(Clone, Copy)]
pub struct HeaderForm;

impl Form for HeaderForm {
    type Value = HeaderMatch;

    ghost seen = { λ value. value };

    ghost of = { λ _. matches.header_of };

    #[tactic(auto, unfolding(crate::specs::Matches::header_of))]
    fn read(&self, alloc: Global, at: &Cursor<'_>) -> Result<HeaderMatch, Refusal> {
        Ok(HeaderMatch {
            sort: at.defaulted(alloc, "type", forms::ValueMatchType, ValueMatchType::Exact)?,
            name: at.needed(alloc, "name", forms::Token)?,
            value: at.needed(alloc, "value", forms::FieldValue)?,
        })
    }
}

/// What is asked of a query parameter.
#[derive(Clone, Copy)]
pub struct QueryParamForm;

impl Form for QueryParamForm {
    type Value = QueryParamMatch;

    ghost seen = { λ value. value };

    ghost of = { λ _. matches.query_param_of };

    #[tactic(auto, unfolding(crate::specs::Matches::query_param_of))]
    fn read(&self, alloc: Global, at: &Cursor<'_>) -> Result<QueryParamMatch, Refusal> {
        Ok(QueryParamMatch {
            sort: at.defaulted(alloc, "type", forms::ValueMatchType, ValueMatchType::Exact)?,
            name: at.needed(alloc, "name", forms::ParameterName)?,
            value: at.needed(alloc, "value", forms::ParameterValue)?,
        })
    }
}

fn path_form(sort: &PathMatchType) -> forms::Plain
    ensures { result ≡ matches.path_form sort.now }
{
    match sort {
        PathMatchType::Exact | PathMatchType::PathPrefix => forms::Path,
        PathMatchType::Other(_) => forms::AnyPath,
    }
}

/// What is asked of a path.
#[derive(Clone, Copy)]
pub struct PathForm;

impl Form for PathForm {
    type Value = PathMatch;

    ghost seen = { λ value. value };

    ghost of = { λ _. matches.path_of };

    #[tactic(auto, unfolding(crate::specs::Matches::path_of))]
    fn read(&self, alloc: Global, at: &Cursor<'_>) -> Result<PathMatch, Refusal> {
        let sort = at.defaulted(
            alloc,
            "type",
            forms::PathMatchType,
            PathMatchType::PathPrefix,
        )?;
        let value = at.defaulted(alloc, "value", path_form(&sort), Text::of(alloc, "/")?)?;
        Ok(PathMatch { sort, value })
    }
}

fn any_path(alloc: Global) -> Result<PathMatch, AllocError>
    ensures { IfOk result (λ path. path ≡ matches.any_path) }
{
    Ok(PathMatch {
        sort: PathMatchType::PathPrefix,
        value: Text::of(alloc, "/")?,
    })
}

/// A match.
#[derive(Clone, Copy)]
pub struct MatchForm;

impl Form for MatchForm {
    type Value = Match;

    ghost seen = { λ value. value };

    ghost of = { λ _. matches.match_of };

    #[tactic(auto, unfolding(crate::specs::Matches::match_of))]
    fn read(&self, alloc: Global, at: &Cursor<'_>) -> Result<Match, Refusal> {
        Ok(Match {
            path: at.defaulted(alloc, "path", PathForm, any_path(alloc)?)?,
            headers: at.listed(alloc, "headers", 16, HeaderForm)?,
            query_params: at.listed(alloc, QUERY_PARAMS, 16, QueryParamForm)?,
            method: at.given(alloc, "method", forms::Word)?,
        })
    }
}

fn default_match(alloc: Global) -> Result<Match, AllocError>
    ensures { IfOk result (λ found. found ≡ matches.default_match) }
{
    Ok(Match {
        path: any_path(alloc)?,
        headers: Vec::new(alloc),
        query_params: Vec::new(alloc),
        method: None,
    })
}

/// The matches of a rule that lists these: where there are none, one that every request meets.
pub fn or_default(alloc: Global, listed: Vec<Match>) -> Result<Vec<Match>, AllocError>
    ensures { IfOk result (λ v. v.items ≡ matches.or_default listed.items) }
{
    if !listed.is_empty() {
        return Ok(listed);
    }
    let mut matches = Vec::with_capacity(alloc, 1)?;
    matches.push(default_match(alloc)?)?;
    Ok(matches)
}
