ghost use Rattle.gw_row_laws.specs.Drawing.{GoesByTheBackendDrawn, NamesNoBackend, NamesNoEndpoints};
ghost use Rattle.gw_row_laws.specs.Tabled.{OfEachDoor};

/// 404 where no row serves the request, a redirect where its rule has one, 500 where it is sent nowhere; else a backend is drawn, and
/// its state says what is done: 500, 503, or the request is sent to one of its sockets.
#[tactic(auto, using(crate::proofs::Deciding::decisions))]
pub fn decisions_go_by_the_backend_drawn()
    ensures { OfEachDoor GoesByTheBackendDrawn }
{}

/// NoEndpoints is named exactly where the backend that is drawn has no ready endpoint.
#[tactic(auto, using(crate::proofs::Faults::no_endpoints_exactly))]
pub fn no_endpoints_where_none_is_ready()
    ensures { OfEachDoor NamesNoEndpoints }
{}

/// NoBackend is named exactly where the row that serves the request doesn't redirect it, and its rule has no backendRefs, or only such
/// of weight 0.
#[tactic(auto, using(crate::proofs::Faults::no_backend_exactly))]
pub fn no_backend_where_nothing_is_sent()
    ensures { OfEachDoor NamesNoBackend }
{}
