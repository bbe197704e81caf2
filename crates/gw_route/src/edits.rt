//! The edits among filters.
ghost use Rattle.std.specs.Prelude.{◌≡◌, map, option_copied};
ghost use Rattle.gw_text.specs.model.Plans as rules;
ghost use Rattle.gw_route.specs.SeenFilter.{seen_filter};

use crate::plain::{Edits, Filter};

/// The edits of requests among the filters of a rule, or of a backendRef.
pub fn request_edits_in(filters: &[Filter]) -> Option<&Edits>
    ensures { option_copied result ≡ rules.request_edits_in (map seen_filter filters.now) }
{
    'filters: for filter in filters {
        if let Filter::RequestHeaderModifier(edits) = filter {
            return Some(edits);
        }
    }
    None
}

/// The edits of responses among them.
pub fn response_edits_in(filters: &[Filter]) -> Option<&Edits>
    ensures { option_copied result ≡ rules.response_edits_in (map seen_filter filters.now) }
{
    'filters: for filter in filters {
        if let Filter::ResponseHeaderModifier(edits) = filter {
            return Some(edits);
        }
    }
    None
}
