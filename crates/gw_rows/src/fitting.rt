ghost use Rattle.std.specs.Prelude.{◌≡◌};
ghost use Rattle.gw_query.specs.model.Parameters.{parameters_of};
ghost use Rattle.gw_text.specs.model.Matches.{path_fits};
ghost use Rattle.gw_rows.specs.model.Fitting as rules;

use crate::headers::headers_fit;
use crate::query::query_fits;
use crate::row::Row;
use gw_frames::Request;
use gw_host::covers;
use gw_path::fits_by;
use gw_query::Parameters;
use gw_route::PathMatch;
use gw_text::{Host, Text};

/// What is asked of a request, in the order in which it is tested.
#[derive(Clone, Copy, Debug, PartialEq, Eq)]
pub enum Test {
    Hostname,
    Path,
    Method,
    Headers,
    Query,
}

fn hostname_fits(hostname: &Option<Host>, host: &Text) -> bool
    ensures { result ≡ rules.hostname_fits hostname.now host.now }
{
    match hostname {
        Some(hostname) => covers(hostname, host.bytes()),
        None => true,
    }
}

fn path_fits(path: &PathMatch, sent: &Text) -> bool
    ensures { result ≡ path_fits path.now sent.now }
{
    fits_by(&path.sort, path.value.bytes(), sent.bytes())
}

fn method_fits(asked: &Option<Text>, method: &Text) -> bool
    ensures { result ≡ rules.method_fits asked.now method.now }
{
    match asked {
        Some(asked) => method == asked,
        None => true,
    }
}

/// The first test of the row that doesn't hold of the request, whose parameters are given.
#[tactic(auto, unfolding(crate::specs::model::Fitting::failed_test))]
pub fn failed_test_with(row: &Row, request: &Request, parameters: &Parameters) -> Option<Test>
    requires { parameters.now ≡ parameters_of request.now.query }
    ensures { result ≡ rules.failed_test row.now request.now }
{
    if !hostname_fits(&row.hostname, &request.host) {
        return Some(Test::Hostname);
    }
    if !path_fits(&row.test.path, &request.path) {
        return Some(Test::Path);
    }
    if !method_fits(&row.test.method, &request.method) {
        return Some(Test::Method);
    }
    if !headers_fit(&row.test.headers, request.fields.as_slice()) {
        return Some(Test::Headers);
    }
    if !query_fits(&row.test.query_params, parameters) {
        return Some(Test::Query);
    }
    None
}

/// The first test of the row that doesn't hold of the request.
pub fn failed_test(row: &Row, request: &Request) -> Option<Test>
    ensures { result ≡ rules.failed_test row.now request.now }
{
    failed_test_with(row, request, &Parameters::of(&request.query))
}

/// Whether all tests of the row hold of the request, whose parameters are given.
#[tactic(auto, unfolding(crate::specs::model::Fitting::fits, crate::specs::model::Fitting::failed_test))]
pub fn fits_with(row: &Row, request: &Request, parameters: &Parameters) -> bool
    requires { parameters.now ≡ parameters_of request.now.query }
    ensures { result ≡ rules.fits row.now request.now }
{
    failed_test_with(row, request, parameters).is_none()
}

/// Whether all tests of the row hold of the request.
pub fn fits(row: &Row, request: &Request) -> bool
    ensures { result ≡ rules.fits row.now request.now }
{
    fits_with(row, request, &Parameters::of(&request.query))
}
