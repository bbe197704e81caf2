//! What an HTTPRoute asks that isn't supported, and which filters can't be together.
ghost use Rattle.std.specs.Prelude.{◌≡◌, ◌&&◌, ◌||◌, false, not, bytes_eq, length, nat_lt, map, option_map, unwrap_or};
ghost use Rattle.std.specs.List.{list_all, list_any};
ghost use Rattle.std.specs.Option.{option_map_or};
ghost use Rattle.gw_text.specs.model.Attachment.{accepted_unless};
ghost use Rattle.gw_text.specs.model.Fields.{same_field_name};
ghost use Rattle.gw_text.specs.model.Unsupported as rules;
ghost use Rattle.gw_route.specs.declared.reason.RouteReason.TheVariants.{Accepted};
ghost use Rattle.gw_route.specs.Reasons.{condition_of, seen_reason};
ghost use Rattle.gw_route.specs.SeenFilter.{seen_filter};
ghost use Rattle.gw_route.specs.SeenModifier.{seen_modifier};

use crate::plain::{
    BackendRef, Edits, Filter, HeaderMatch, HttpRoute, Match, PathModifier, QueryParamMatch,
    Redirect, Rule,
};
use crate::reason::RouteReason;
use gw_text::{Fields, Names, PathMatchType, Text, ValueMatchType};

fn is_other_path_type(sort: &PathMatchType) -> bool
    ensures { result ≡ rules.is_other_path_type sort.now }
{
    matches!(sort, PathMatchType::Other(_))
}

fn is_other_value_type(sort: &ValueMatchType) -> bool
    ensures { result ≡ rules.is_other_value_type sort.now }
{
    matches!(sort, ValueMatchType::Other(_))
}

// Whether the text is one of these.
fn is_one_of(texts: &[&str], text: &Text) -> bool
    ensures { result ≡ list_any (λ other. bytes_eq text.now other.now) texts.now }
{
    texts.iter().any(|other| text.bytes() == other.as_bytes())
}

fn is_method(text: &Text) -> bool
    ensures { result ≡ rules.is_one_of rules.methods text.now }
{
    let methods = [
        "GET", "HEAD", "POST", "PUT", "DELETE", "CONNECT", "OPTIONS", "TRACE", "PATCH",
    ];
    is_one_of(&methods, text)
}

fn has_other_method(method: &Option<Text>) -> bool
    ensures { result ≡ option_map_or rules.is_other_method method.now false }
{
    match method {
        Some(text) => !is_method(text),
        None => false,
    }
}

fn has_other_header(headers: &[HeaderMatch]) -> bool
    ensures { result ≡ list_any (λ h. rules.is_other_value_type h.sort) headers.now }
{
    headers
        .iter()
        .any(|header| is_other_value_type(&header.sort))
}

fn has_other_param(params: &[QueryParamMatch]) -> bool
    ensures { result ≡ list_any (λ q. rules.is_other_value_type q.sort) params.now }
{
    params.iter().any(|param| is_other_value_type(&param.sort))
}

fn is_unsupported_match(asked: &Match) -> bool
    ensures { result ≡ rules.is_unsupported_match asked.now }
{
    is_other_path_type(&asked.path.sort)
        || has_other_header(asked.headers.as_slice())
        || has_other_param(asked.query_params.as_slice())
        || has_other_method(&asked.method)
}

// Whether the name is one of these, in upper or lower case.
fn is_named(names: &[&str], name: &Text) -> bool
    ensures { result ≡ list_any (λ other. same_field_name name.now other.now) names.now }
{
    names.iter().any(|other| name.bytes().eq_ignore_ascii_case(other.as_bytes()))
}

fn is_kept_field(name: &Text) -> bool
    ensures { result ≡ rules.is_kept_field name.now }
{
    let kept = [
        "host",
        "connection",
        "content-length",
        "transfer-encoding",
        "keep-alive",
        "proxy-connection",
        "te",
        "trailer",
        "upgrade",
    ];
    is_named(&kept, name)
}

fn has_kept_field(fields: &Fields) -> bool
    ensures { result ≡ list_any (λ f. rules.is_kept_field f.name) fields.now }
{
    fields
        .as_slice()
        .iter()
        .any(|field| is_kept_field(&field.name))
}

fn has_kept_name(names: &Names) -> bool
    ensures { result ≡ list_any rules.is_kept_field names.now }
{
    names.as_slice().iter().any(is_kept_field)
}

fn is_unsupported_edit(edits: &Edits) -> bool
    ensures { result ≡ rules.is_unsupported_edit edits.now }
{
    has_kept_field(&edits.set) || has_kept_field(&edits.add) || has_kept_name(&edits.remove)
}

fn has_other_modifier(path: &Option<PathModifier>) -> bool
    ensures { result ≡ option_map_or rules.is_other_modifier (option_map seen_modifier path.now) false }
{
    matches!(path, Some(PathModifier::Other(_)))
}

fn is_scheme(text: &Text) -> bool
    ensures { result ≡ rules.is_one_of rules.schemes text.now }
{
    is_one_of(&["http", "https"], text)
}

fn has_other_scheme(scheme: &Option<Text>) -> bool
    ensures { result ≡ option_map_or rules.is_other_scheme scheme.now false }
{
    match scheme {
        Some(text) => !is_scheme(text),
        None => false,
    }
}

fn has_other_code(code: Option<u16>) -> bool
    ensures { result ≡ option_map_or rules.is_other_code code false }
{
    match code {
        Some(code) => !matches!(code, 301 | 302 | 303 | 307 | 308),
        None => false,
    }
}

fn is_unsupported_redirect(redirect: &Redirect) -> bool
    ensures { result ≡ rules.is_unsupported_redirect redirect.now }
{
    has_other_scheme(&redirect.scheme)
        || has_other_modifier(&redirect.path)
        || has_other_code(redirect.status_code)
}

fn is_unsupported_filter(filter: &Filter) -> bool
    ensures { result ≡ rules.is_unsupported_filter (seen_filter filter.now) }
{
    match filter {
        Filter::RequestHeaderModifier(edits) | Filter::ResponseHeaderModifier(edits) => {
            is_unsupported_edit(edits)
        }
        Filter::RequestRedirect(redirect) => is_unsupported_redirect(redirect),
        Filter::UrlRewrite(rewrite) => has_other_modifier(&rewrite.path),
        Filter::Other(_) => true,
    }
}

fn has_unsupported_match(matches: &[Match]) -> bool
    ensures { result ≡ list_any rules.is_unsupported_match matches.now }
{
    matches.iter().any(is_unsupported_match)
}

fn has_unsupported_filter(filters: &[Filter]) -> bool
    ensures { result ≡ list_any (λ f. rules.is_unsupported_filter (seen_filter f)) filters.now }
{
    filters.iter().any(is_unsupported_filter)
}

fn is_unsupported_backend_filter(filter: &Filter) -> bool
    ensures { result ≡ rules.is_unsupported_backend_filter (seen_filter filter.now) }
{
    match filter {
        Filter::RequestHeaderModifier(edits) | Filter::ResponseHeaderModifier(edits) => {
            is_unsupported_edit(edits)
        }
        Filter::RequestRedirect(_) | Filter::UrlRewrite(_) | Filter::Other(_) => true,
    }
}

fn has_unsupported_backend_filter(filters: &[Filter]) -> bool
    ensures { result ≡ list_any (λ f. rules.is_unsupported_backend_filter (seen_filter f)) filters.now }
{
    filters.iter().any(is_unsupported_backend_filter)
}

#[tactic(auto, using(crate::proofs::Lists::list_any_map))]
fn is_unsupported_backend(backend: &BackendRef) -> bool
    ensures { result ≡ rules.is_unsupported_backend backend.now }
{
    has_unsupported_backend_filter(backend.filters.as_slice())
}

fn has_unsupported_backend(backends: &[BackendRef]) -> bool
    ensures { result ≡ list_any rules.is_unsupported_backend backends.now }
{
    backends.iter().any(is_unsupported_backend)
}

#[tactic(auto, using(crate::proofs::Lists::list_any_map), unfolding(gw_text::specs::model::Unsupported::is_unsupported_rule))]
fn is_unsupported_rule(rule: &Rule) -> bool
    ensures { result ≡ rules.is_unsupported_rule rule.now }
{
    has_unsupported_match(rule.matches.as_slice())
        || has_unsupported_filter(rule.filters.as_slice())
        || has_unsupported_backend(rule.backend_refs.as_slice())
        || rule.timeouts
}

fn is_request_edit(filter: &Filter) -> bool
    ensures { result ≡ rules.is_request_edit (seen_filter filter.now) }
{
    matches!(filter, Filter::RequestHeaderModifier(_))
}

fn is_response_edit(filter: &Filter) -> bool
    ensures { result ≡ rules.is_response_edit (seen_filter filter.now) }
{
    matches!(filter, Filter::ResponseHeaderModifier(_))
}

fn is_redirect(filter: &Filter) -> bool
    ensures { result ≡ rules.is_redirect (seen_filter filter.now) }
{
    matches!(filter, Filter::RequestRedirect(_))
}

fn is_rewrite(filter: &Filter) -> bool
    ensures { result ≡ rules.is_rewrite (seen_filter filter.now) }
{
    matches!(filter, Filter::UrlRewrite(_))
}

fn has_two_request_edits(filters: &[Filter]) -> bool
    ensures { result ≡ rules.is_repeated rules.is_request_edit (map seen_filter filters.now) }
{
    let edits = filters.iter().filter(|filter| is_request_edit(filter));
    edits.count() > 1
}

fn has_two_response_edits(filters: &[Filter]) -> bool
    ensures { result ≡ rules.is_repeated rules.is_response_edit (map seen_filter filters.now) }
{
    let edits = filters.iter().filter(|filter| is_response_edit(filter));
    edits.count() > 1
}

fn has_two_redirects(filters: &[Filter]) -> bool
    ensures { result ≡ rules.is_repeated rules.is_redirect (map seen_filter filters.now) }
{
    let redirects = filters.iter().filter(|filter| is_redirect(filter));
    redirects.count() > 1
}

fn has_two_rewrites(filters: &[Filter]) -> bool
    ensures { result ≡ rules.is_repeated rules.is_rewrite (map seen_filter filters.now) }
{
    let rewrites = filters.iter().filter(|filter| is_rewrite(filter));
    rewrites.count() > 1
}

fn has_repeated_type(filters: &[Filter]) -> bool
    ensures { result ≡ rules.has_repeated_type (map seen_filter filters.now) }
{
    has_two_request_edits(filters)
        || has_two_response_edits(filters)
        || has_two_redirects(filters)
        || has_two_rewrites(filters)
}

fn has_redirect(filters: &[Filter]) -> bool
    ensures { result ≡ list_any (λ f. rules.is_redirect (seen_filter f)) filters.now }
{
    filters.iter().any(is_redirect)
}

fn has_rewrite(filters: &[Filter]) -> bool
    ensures { result ≡ list_any (λ f. rules.is_rewrite (seen_filter f)) filters.now }
{
    filters.iter().any(is_rewrite)
}

fn has_prefix_modifier(path: &Option<PathModifier>) -> bool
    ensures { result ≡ option_map_or rules.is_prefix_modifier (option_map seen_modifier path.now) false }
{
    matches!(path, Some(PathModifier::ReplacePrefixMatch(_)))
}

fn replaces_prefix(filter: &Filter) -> bool
    ensures { result ≡ rules.replaces_prefix (seen_filter filter.now) }
{
    match filter {
        Filter::RequestRedirect(redirect) => has_prefix_modifier(&redirect.path),
        Filter::UrlRewrite(rewrite) => has_prefix_modifier(&rewrite.path),
        Filter::RequestHeaderModifier(_) | Filter::ResponseHeaderModifier(_) | Filter::Other(_) =>
            false,
    }
}

fn has_prefix_replacement(filters: &[Filter]) -> bool
    ensures { result ≡ list_any (λ f. rules.replaces_prefix (seen_filter f)) filters.now }
{
    filters.iter().any(replaces_prefix)
}

fn is_prefix(asked: &Match) -> bool
    ensures { result ≡ rules.is_prefix_type asked.now.path.sort }
{
    matches!(asked.path.sort, PathMatchType::PathPrefix)
}

fn are_prefixes(matches: &[Match]) -> bool
    ensures { result ≡ list_all (λ m. rules.is_prefix_type m.path.sort) matches.now }
{
    matches.iter().all(is_prefix)
}

fn has_one_prefix(matches: &[Match]) -> bool
    ensures { result ≡ rules.has_one_prefix matches.now }
{
    matches.len() <= 1 && are_prefixes(matches)
}

// A redirect beside a rewrite, or beside backendRefs.
#[tactic(auto, using(crate::proofs::Lists::list_any_map))]
fn has_redirect_beside_others(rule: &Rule) -> bool
    ensures { result ≡ (list_any rules.is_redirect rule.now.filters
        && (list_any rules.is_rewrite rule.now.filters || nat_lt 0 (length rule.now.backend_refs))) }
{
    let filters = rule.filters.as_slice();
    has_redirect(filters) && (has_rewrite(filters) || !rule.backend_refs.is_empty())
}

// The replacement of a prefix where the matches don't name one.
#[tactic(auto, using(crate::proofs::Lists::list_any_map))]
fn lacks_prefix(rule: &Rule) -> bool
    ensures { result ≡ (list_any rules.replaces_prefix rule.now.filters && not (rules.has_one_prefix rule.now.matches)) }
{
    has_prefix_replacement(rule.filters.as_slice()) && !has_one_prefix(rule.matches.as_slice())
}

fn repeats_type(backend: &BackendRef) -> bool
    ensures { result ≡ rules.has_repeated_type backend.now.filters }
{
    has_repeated_type(backend.filters.as_slice())
}

fn has_backend_that_repeats_type(backends: &[BackendRef]) -> bool
    ensures { result ≡ list_any (λ b. rules.has_repeated_type b.filters) backends.now }
{
    backends.iter().any(repeats_type)
}

#[tactic(auto, unfolding(gw_text::specs::model::Unsupported::is_incompatible_rule))]
fn is_incompatible_rule(rule: &Rule) -> bool
    ensures { result ≡ rules.is_incompatible_rule rule.now }
{
    has_repeated_type(rule.filters.as_slice())
        || has_redirect_beside_others(rule)
        || lacks_prefix(rule)
        || has_backend_that_repeats_type(rule.backend_refs.as_slice())
}

fn has_unsupported_rule(list: &[Rule]) -> bool
    ensures { result ≡ list_any rules.is_unsupported_rule list.now }
{
    list.iter().any(is_unsupported_rule)
}

fn has_incompatible_rule(list: &[Rule]) -> bool
    ensures { result ≡ list_any rules.is_incompatible_rule list.now }
{
    list.iter().any(is_incompatible_rule)
}

/// Why no listener can serve the Route as it stands: UnsupportedValue, else IncompatibleFilters, else none.
#[tactic(auto, unfolding(gw_text::specs::model::Unsupported::unsupported_of))]
pub fn unsupported(r: &HttpRoute) -> Option<RouteReason>
    ensures reason { option_map seen_reason result ≡ rules.unsupported_of r.now }
    ensures condition { condition_of (unwrap_or result Accepted) ≡ accepted_unless (rules.unsupported_of r.now) }
{
    if has_unsupported_rule(r.rules.as_slice()) {
        Some(RouteReason::UnsupportedValue)
    } else if has_incompatible_rule(r.rules.as_slice()) {
        Some(RouteReason::IncompatibleFilters)
    } else {
        None
    }
}
