//! HTTPRoutes and their parts, with the defaults of absent fields filled in. A field `type` is called `sort`.
use gw_text::{
    Fields, Host, List, Meta, Name, Names, NamespaceName, PathMatchType, Text, ValueMatchType,
};
use std::marker::Model;

/// What a Route wants to be attached to: as a rule a Gateway, or one listener of it.
#[derive(Drop)]
pub struct ParentRef {
    pub group: Text,
    pub kind: Text,
    pub namespace: NamespaceName,
    pub name: Name,
    pub section_name: Option<Name>,
    pub port: Option<u16>,
}

impl Model for ParentRef {
    ghost use Rattle.gw_text.specs.model.Routes.{ParentRef as Plain};

    ghost Value = { Plain };

    ghost view = { λ p. record { group = p.group; kind = p.kind; namespace = p.namespace; name = p.name; section_name = p.section_name; port = p.port } };
}

/// What is asked of a request's path.
#[derive(Drop)]
pub struct PathMatch {
    pub sort: PathMatchType,
    pub value: Text,
}

impl Model for PathMatch {
    ghost use Rattle.gw_text.specs.model.Matches.{PathMatch as Plain};

    ghost Value = { Plain };

    ghost view = { λ p. record { sort = p.sort; value = p.value } };
}

/// What is asked of a field of a request.
#[derive(Drop)]
pub struct HeaderMatch {
    pub sort: ValueMatchType,
    pub name: Text,
    pub value: Text,
}

impl Model for HeaderMatch {
    ghost use Rattle.gw_text.specs.model.Matches.{HeaderMatch as Plain};

    ghost Value = { Plain };

    ghost view = { λ h. record { sort = h.sort; name = h.name; value = h.value } };
}

/// What is asked of a parameter in a request's query.
#[derive(Drop)]
pub struct QueryParamMatch {
    pub sort: ValueMatchType,
    pub name: Text,
    pub value: Text,
}

impl Model for QueryParamMatch {
    ghost use Rattle.gw_text.specs.model.Matches.{QueryParamMatch as Plain};

    ghost Value = { Plain };

    ghost view = { λ q. record { sort = q.sort; name = q.name; value = q.value } };
}

/// What is asked of a request, all of it.
pub struct Match {
    pub path: PathMatch,
    pub headers: Vec<HeaderMatch>,
    pub query_params: Vec<QueryParamMatch>,
    pub method: Option<Text>,
}

impl Model for Match {
    ghost use Rattle.gw_text.specs.model.Matches.{Match as Plain};

    ghost Value = { Plain };

    ghost view = { λ m. record { path = m.path; headers = m.headers.items; query_params = m.query_params.items; method = m.method } };
}

// Written out, so that crates above don't prove anew how its parts are dropped.
impl Drop for Match {
    fn drop(self) {
        let Match {
            path: _,
            headers: _,
            query_params: _,
            method: _,
        } = self;
    }
}

/// What is done to the fields of a message.
#[derive(Drop)]
pub struct Edits {
    pub set: Fields,
    pub add: Fields,
    pub remove: Names,
}

impl Model for Edits {
    ghost use Rattle.gw_text.specs.model.Filters.{Edits as Plain};

    ghost Value = { Plain };

    ghost view = { λ e. record { set = e.set; add = e.add; remove = e.remove } };
}

/// What becomes of a request's path.
#[derive(Drop)]
pub enum PathModifier {
    ReplaceFullPath(Text),
    ReplacePrefixMatch(Text),
    /// A type that isn't read further, by its name.
    Other(Text),
}

/// A redirect; what is absent stays as it is in the request.
#[derive(Drop)]
pub struct Redirect {
    pub scheme: Option<Text>,
    /// A hostname without a wildcard.
    pub hostname: Option<Text>,
    pub path: Option<PathModifier>,
    pub port: Option<u16>,
    pub status_code: Option<u16>,
}

impl Model for Redirect {
    ghost use Rattle.std.specs.Prelude.{option_map};
    ghost use Rattle.gw_text.specs.model.Filters.{Redirect as Plain};
    ghost use Rattle.gw_route.specs.SeenModifier.{seen_modifier};

    ghost Value = { Plain };

    ghost view = { λ r. record { scheme = r.scheme; hostname = r.hostname; path = option_map seen_modifier r.path; port = r.port; status_code = r.status_code } };
}

/// What is rewritten in a forwarded request.
#[derive(Drop)]
pub struct Rewrite {
    /// A hostname without a wildcard.
    pub hostname: Option<Text>,
    pub path: Option<PathModifier>,
}

impl Model for Rewrite {
    ghost use Rattle.std.specs.Prelude.{option_map};
    ghost use Rattle.gw_text.specs.model.Filters.{Rewrite as Plain};
    ghost use Rattle.gw_route.specs.SeenModifier.{seen_modifier};

    ghost Value = { Plain };

    ghost view = { λ w. record { hostname = w.hostname; path = option_map seen_modifier w.path } };
}

/// A filter of a rule, or of a backendRef.
#[derive(Drop)]
pub enum Filter {
    RequestHeaderModifier(Edits),
    ResponseHeaderModifier(Edits),
    RequestRedirect(Redirect),
    UrlRewrite(Rewrite),
    /// A type that isn't read further, by its name.
    Other(Text),
}

/// Filters in their order.
pub type Filters = List<Filter>;

/// Where a rule sends requests.
#[derive(Drop)]
pub struct BackendRef {
    /// The empty text is the core group.
    pub group: Text,
    pub kind: Text,
    pub name: Name,
    pub namespace: NamespaceName,
    /// A Service always has one.
    pub port: Option<u16>,
    /// Its share of the rule's requests, 0 to 1,000,000.
    pub weight: u32,
    /// What is done to the requests that it gets, and to their responses.
    pub filters: Vec<Filter>,
}

impl Model for BackendRef {
    ghost use Rattle.std.specs.Prelude.{map};
    ghost use Rattle.gw_text.specs.model.Routes.{BackendRef as Plain};
    ghost use Rattle.gw_route.specs.SeenFilter.{seen_filter};

    ghost Value = { Plain };

    ghost view = { λ b. record { group = b.group; kind = b.kind; name = b.name; namespace = b.namespace; port = b.port; weight = b.weight; filters = map seen_filter b.filters.items } };
}

/// A rule of an HTTPRoute.
#[derive(Drop)]
pub struct Rule {
    /// One or more; a request has to meet one of them.
    pub matches: Vec<Match>,
    pub filters: Vec<Filter>,
    pub backend_refs: Vec<BackendRef>,
    /// Whether it has timeouts.
    pub timeouts: bool,
}

impl Model for Rule {
    ghost use Rattle.std.specs.Prelude.{map};
    ghost use Rattle.gw_text.specs.model.Routes.{Rule as Plain};
    ghost use Rattle.gw_route.specs.SeenFilter.{seen_filter};

    ghost Value = { Plain };

    ghost view = { λ r. record { matches = r.matches.items; filters = map seen_filter r.filters.items; backend_refs = r.backend_refs.items; timeouts = r.timeouts } };
}

/// An HTTPRoute.
pub struct HttpRoute {
    pub meta: Meta,
    pub parent_refs: Vec<ParentRef>,
    pub hostnames: Vec<Host>,
    pub rules: Vec<Rule>,
}

impl Model for HttpRoute {
    ghost use Rattle.gw_text.specs.model.Routes.{HttpRoute as Plain};

    ghost Value = { Plain };

    ghost view = { λ r. record { meta = r.meta; parent_refs = r.parent_refs.items; hostnames = r.hostnames.items; rules = r.rules.items } };
}

// Written out, so that crates above don't prove anew how its parts are dropped.
impl Drop for HttpRoute {
    fn drop(self) {
        let HttpRoute {
            meta: _,
            parent_refs: _,
            hostnames: _,
            rules: _,
        } = self;
    }
}
