ghost use Rattle.std.specs.Prelude.{◌≡◌};
ghost use Rattle.gw_decide.specs.ExplainText.{why_text};
ghost use Rattle.gw_decide.specs.model.Reasons as rules;

/// Why a Route serves a request or doesn't: how far its rows came.
#[derive(Clone, Copy, Debug, PartialEq, Eq)]
pub enum Why {
    OtherListener,
    Hostname,
    Path,
    Method,
    Headers,
    Query,
    Preceded,
    Chosen,
}

impl Why {
    /// Its name.
    pub fn text(self) -> &'static str
        ensures { result.now ≡ why_text self }
    {
        match self {
            Why::OtherListener => "OtherListener",
            Why::Hostname => "Hostname",
            Why::Path => "Path",
            Why::Method => "Method",
            Why::Headers => "Headers",
            Why::Query => "Query",
            Why::Preceded => "Preceded",
            Why::Chosen => "Chosen",
        }
    }

    // How far a row with this reason came.
    fn distance(self) -> u8
        ensures { result ≡ rules.distance self }
    {
        match self {
            Why::OtherListener => 0,
            Why::Hostname => 1,
            Why::Path => 2,
            Why::Method => 3,
            Why::Headers => 4,
            Why::Query => 5,
            Why::Preceded => 6,
            Why::Chosen => 7,
        }
    }

    /// The reason of the one that came further.
    pub fn further(self, other: Why) -> Why
        ensures { result ≡ rules.further self other }
    {
        if self.distance() < other.distance() {
            other
        } else {
            self
        }
    }
}
