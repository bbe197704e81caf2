//! The parameters of a query.
ghost use Rattle.std.specs.Prelude.{◌≡◌, option_copied};
ghost use Rattle.gw_query.specs.model.Parameters as rules;

use crate::query::Query;
use crate::sorted::value_at;
use gw_text::Text;
use std::marker::Model;

/// The parameters of the query of a request, if it has one. Looking for one takes no memory.
#[derive(Drop)]
pub struct Parameters<'q> {
    query: Option<&'q Query>,
}

impl<'q> Model for Parameters<'q> {
    ghost use Rattle.std.specs.Prelude.{List, option_copied};
    ghost use Rattle.gw_query.specs.model.Parameters.{Parameter, parameters_of};

    ghost Value = { List Parameter };

    ghost view = { λ p. parameters_of (option_copied p.query) };
}

impl<'q> Parameters<'q> {
    /// Those of a query.
    pub fn of(query: &'q Option<Query>) -> Self
        ensures { result ≡ rules.parameters_of query.now }
    {
        Parameters {
            query: query.as_ref(),
        }
    }

    /// The value of the first of them that has the name.
    pub fn first_value(&self, name: &Text) -> Option<&'q [u8]>
        ensures { option_copied result ≡ rules.first_value name.now self.now }
    {
        match self.query {
            Some(query) => value_at(query.sorted(), name),
            None => None,
        }
    }
}
