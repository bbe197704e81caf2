ghost use Rattle.std.specs.Prelude.{◌≡◌, length};
ghost use Rattle.std.specs.Cmp.{IsTotalOrder};
ghost use Rattle.std.specs.Ordering.{nat_cmp, bool_cmp};
ghost use Rattle.std.specs.declared.cmp.Ordering.TheVariants.{Equal};
ghost use Rattle.gw_rows.specs.model.Fitting.{counted_headers, counted_query_params};
ghost use Rattle.gw_rows.specs.model.Precedence as rules;
ghost use Rattle.gw_text.specs.model.Names.{key_order};

use crate::row::Row;
use crate::{headers, query};
use gw_host::specificity;
use gw_text::PathMatchType;
use std::cmp::Ordering;

// The row of which there is more stands before.
fn most(a: usize, b: usize) -> Ordering
    ensures { result ≡ nat_cmp b a }
{
    b.cmp(&a)
}

// The row that has it stands before one that doesn't.
fn having(a: bool, b: bool) -> Ordering
    ensures { result ≡ bool_cmp b a }
{
    b.cmp(&a)
}

fn precise_characters(row: &Row) -> usize
    ensures { result ≡ rules.precise_characters row.now }
{
    match &row.hostname {
        Some(hostname) => specificity(hostname).0,
        None => 0,
    }
}

fn hostname_characters(row: &Row) -> usize
    ensures { result ≡ rules.hostname_characters row.now }
{
    match &row.hostname {
        Some(hostname) => specificity(hostname).1,
        None => 0,
    }
}

fn is_exact(row: &Row) -> bool
    ensures { result ≡ rules.is_exact_type row.now.test.path.sort }
{
    match &row.test.path.sort {
        PathMatchType::Exact => true,
        PathMatchType::PathPrefix | PathMatchType::Other(_) => false,
    }
}

fn path_characters(row: &Row) -> usize
    ensures { result ≡ length row.now.test.path.value }
{
    row.test.path.value.bytes().len()
}

fn header_matches(row: &Row) -> usize
    ensures { result ≡ length (counted_headers row.now.test.headers) }
{
    headers::count(&row.test.headers)
}

fn query_matches(row: &Row) -> usize
    ensures { result ≡ length (counted_query_params row.now.test.query_params) }
{
    query::count(&row.test.query_params)
}

// Keys with one text are one key.
fn by_key(a: &Row, b: &Row) -> Ordering
    ensures order { result ≡ key_order a.now.key b.now.key }
    ensures equal { result ≡ Equal → a.now.key ≡ b.now.key }
{
    a.key.compare(&b.key)
}

/// Which of two rows of one listener stands before the other: `Less` where `a` does.
#[tactic(auto, unfolding(crate::specs::model::Precedence::precedence))]
pub fn precedence(a: &Row, b: &Row) -> Ordering
    ensures value { result ≡ rules.precedence a.now b.now }
    ensures one { result ≡ Equal → rules.AreOneRow a.now b.now }
{
    most(precise_characters(a), precise_characters(b))
        .then_with(|| most(hostname_characters(a), hostname_characters(b)))
        .then_with(|| having(is_exact(a), is_exact(b)))
        .then_with(|| most(path_characters(a), path_characters(b)))
        .then_with(|| having(a.test.method.is_some(), b.test.method.is_some()))
        .then_with(|| most(header_matches(a), header_matches(b)))
        .then_with(|| most(query_matches(a), query_matches(b)))
        .then_with(|| a.created.cmp(&b.created))
        .then_with(|| by_key(a, b))
        .then_with(|| a.rule.cmp(&b.rule))
        .then_with(|| a.place.cmp(&b.place))
        .then_with(|| a.host_place.cmp(&b.host_place))
}

/// Whether `a` stands before `b`.
pub fn better(a: &Row, b: &Row) -> bool
    ensures { result ≡ rules.better a.now b.now }
{
    precedence(a, b).is_lt()
}

/// The law of precedence: it is a total order, so that of two rows of one listener that aren't one row exactly one is better, and a
/// row that is better than another is better than all to which that one is better.
#[tactic(auto, using(crate::proofs::Ordered::is_total))]
pub fn is_total_order()
    ensures { IsTotalOrder rules.precedence }
{}
