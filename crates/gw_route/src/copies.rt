//! Filters, edits and matches once more, for what outlives the Route from which they were read.
ghost use Rattle.std.specs.Prelude.{◌≡◌, IfOk, map, option_map};
ghost use Rattle.gw_route.specs.SeenFilter.{seen_filter};
ghost use Rattle.gw_route.specs.SeenModifier.{seen_modifier};

use crate::plain::{
    Edits, Filter, Filters, HeaderMatch, Match, PathMatch, PathModifier, QueryParamMatch, Redirect,
    Rewrite,
};
use gw_text::{Fields, Names, NoMemory, Text};
use std::alloc::Global;

fn copy_fields(alloc: Global, fields: &Fields) -> Result<Fields, NoMemory>
    ensures { IfOk result (λ copy. copy ≡ fields.now) }
{
    let mut copy = Fields::new(alloc);
    'fields: for field in fields.as_slice() {
        copy.push(field.copy(alloc)?)?;
    }
    Ok(copy)
}

fn copy_names(alloc: Global, names: &Names) -> Result<Names, NoMemory>
    ensures { IfOk result (λ copy. copy ≡ names.now) }
{
    let mut copy = Names::new(alloc);
    'names: for name in names.as_slice() {
        copy.push(name.copy(alloc)?)?;
    }
    Ok(copy)
}

fn copy_text(alloc: Global, text: &Option<Text>) -> Result<Option<Text>, NoMemory>
    ensures { IfOk result (λ copy. copy ≡ text.now) }
{
    match text {
        Some(text) => Ok(Some(text.copy(alloc)?)),
        None => Ok(None),
    }
}

/// The same edits once more.
pub fn copy_edits(alloc: Global, edits: &Edits) -> Result<Edits, NoMemory>
    ensures { IfOk result (λ copy. copy ≡ edits.now) }
{
    Ok(Edits {
        set: copy_fields(alloc, &edits.set)?,
        add: copy_fields(alloc, &edits.add)?,
        remove: copy_names(alloc, &edits.remove)?,
    })
}

fn copy_modifier(alloc: Global, modifier: &PathModifier) -> Result<PathModifier, NoMemory>
    ensures { IfOk result (λ copy. seen_modifier copy ≡ seen_modifier modifier.now) }
{
    match modifier {
        PathModifier::ReplaceFullPath(path) => Ok(PathModifier::ReplaceFullPath(path.copy(alloc)?)),
        PathModifier::ReplacePrefixMatch(path) => {
            Ok(PathModifier::ReplacePrefixMatch(path.copy(alloc)?))
        }
        PathModifier::Other(name) => Ok(PathModifier::Other(name.copy(alloc)?)),
    }
}

fn copy_path(alloc: Global, path: &Option<PathModifier>) -> Result<Option<PathModifier>, NoMemory>
    ensures { IfOk result (λ copy. option_map seen_modifier copy ≡ option_map seen_modifier path.now) }
{
    match path {
        Some(modifier) => Ok(Some(copy_modifier(alloc, modifier)?)),
        None => Ok(None),
    }
}

fn copy_redirect(alloc: Global, redirect: &Redirect) -> Result<Redirect, NoMemory>
    ensures { IfOk result (λ copy. copy ≡ redirect.now) }
{
    Ok(Redirect {
        scheme: copy_text(alloc, &redirect.scheme)?,
        hostname: copy_text(alloc, &redirect.hostname)?,
        path: copy_path(alloc, &redirect.path)?,
        port: redirect.port,
        status_code: redirect.status_code,
    })
}

fn copy_rewrite(alloc: Global, rewrite: &Rewrite) -> Result<Rewrite, NoMemory>
    ensures { IfOk result (λ copy. copy ≡ rewrite.now) }
{
    Ok(Rewrite {
        hostname: copy_text(alloc, &rewrite.hostname)?,
        path: copy_path(alloc, &rewrite.path)?,
    })
}

fn copy_filter(alloc: Global, filter: &Filter) -> Result<Filter, NoMemory>
    ensures { IfOk result (λ copy. seen_filter copy ≡ seen_filter filter.now) }
{
    match filter {
        Filter::RequestHeaderModifier(edits) => {
            Ok(Filter::RequestHeaderModifier(copy_edits(alloc, edits)?))
        }
        Filter::ResponseHeaderModifier(edits) => {
            Ok(Filter::ResponseHeaderModifier(copy_edits(alloc, edits)?))
        }
        Filter::RequestRedirect(redirect) => {
            Ok(Filter::RequestRedirect(copy_redirect(alloc, redirect)?))
        }
        Filter::UrlRewrite(rewrite) => Ok(Filter::UrlRewrite(copy_rewrite(alloc, rewrite)?)),
        Filter::Other(name) => Ok(Filter::Other(name.copy(alloc)?)),
    }
}

/// The same filters once more.
pub fn copy_filters(alloc: Global, filters: &[Filter]) -> Result<Filters, NoMemory>
    ensures { IfOk result (λ copy. map seen_filter copy ≡ map seen_filter filters.now) }
{
    let mut copy = Filters::new(alloc);
    'filters: for filter in filters {
        copy.push(copy_filter(alloc, filter)?)?;
    }
    Ok(copy)
}

fn copy_path_match(alloc: Global, path: &PathMatch) -> Result<PathMatch, NoMemory>
    ensures { IfOk result (λ copy. copy ≡ path.now) }
{
    Ok(PathMatch {
        sort: path.sort.copy(alloc)?,
        value: path.value.copy(alloc)?,
    })
}

fn copy_header(alloc: Global, header: &HeaderMatch) -> Result<HeaderMatch, NoMemory>
    ensures { IfOk result (λ copy. copy ≡ header.now) }
{
    Ok(HeaderMatch {
        sort: header.sort.copy(alloc)?,
        name: header.name.copy(alloc)?,
        value: header.value.copy(alloc)?,
    })
}

fn copy_headers(alloc: Global, headers: &[HeaderMatch]) -> Result<Vec<HeaderMatch>, NoMemory>
    ensures { IfOk result (λ copy. copy.items ≡ headers.now) }
{
    let mut copy = Vec::new(alloc);
    'headers: for header in headers {
        copy.push(copy_header(alloc, header)?)?;
    }
    Ok(copy)
}

fn copy_param(alloc: Global, param: &QueryParamMatch) -> Result<QueryParamMatch, NoMemory>
    ensures { IfOk result (λ copy. copy ≡ param.now) }
{
    Ok(QueryParamMatch {
        sort: param.sort.copy(alloc)?,
        name: param.name.copy(alloc)?,
        value: param.value.copy(alloc)?,
    })
}

fn copy_params(alloc: Global, params: &[QueryParamMatch]) -> Result<Vec<QueryParamMatch>, NoMemory>
    ensures { IfOk result (λ copy. copy.items ≡ params.now) }
{
    let mut copy = Vec::new(alloc);
    'params: for param in params {
        copy.push(copy_param(alloc, param)?)?;
    }
    Ok(copy)
}

/// The same match once more.
pub fn copy_match(alloc: Global, test: &Match) -> Result<Match, NoMemory>
    ensures { IfOk result (λ copy. copy ≡ test.now) }
{
    Ok(Match {
        path: copy_path_match(alloc, &test.path)?,
        headers: copy_headers(alloc, &test.headers)?,
        query_params: copy_params(alloc, &test.query_params)?,
        method: copy_text(alloc, &test.method)?,
    })
}
