//! Plans that rows share.
ghost use Rattle.std.specs.Prelude.{◌≡◌, ◌<◌, ◌++◌, ◌∷◌, [], IfOk, OnOk, get_or, length, map};
ghost use Rattle.std.specs.Arc.{arc_value};

use gw_rows::Plan;
use gw_text::NoMemory;
use std::alloc::Global;
use std::marker::Model;
use std::sync::Arc;

/// What the rules of a Route do, in list order: handles, so that all rows of a rule share what it does.
#[derive(Drop)]
pub struct Plans {
    plans: Vec<Arc<Plan>>,
}

impl Model for Plans {
    ghost use Rattle.std.specs.Prelude.{List, map};
    ghost use Rattle.std.specs.Arc.{arc_value};
    ghost use Rattle.gw_text.specs.model.Plans.{Plan as Plain};

    ghost Value = { List Plain };

    ghost view = { λ p. map arc_value p.plans.items };
}

impl Plans {
    /// None.
    pub fn new(alloc: Global) -> Self
        ensures { result ≡ [] }
    {
        Plans {
            plans: Vec::new(alloc),
        }
    }

    /// Puts a plan at the end.
    pub fn push(&mut self, alloc: Global, plan: Plan) -> Result<(), NoMemory>
        ensures { OnOk result (self.new ≡ self.old ++ plan ∷ []) }
    {
        self.plans.push(Arc::new(alloc, plan)?)?;
        Ok(())
    }

    /// The plans.
    pub fn as_slice(&self) -> &[Arc<Plan>]
        ensures { map arc_value result.now ≡ self.now }
    {
        self.plans.as_slice()
    }

    /// A handle on the plan at this place.
    pub fn at(&self, place: usize) -> Result<Arc<Plan>, NoMemory>
        requires { place < length self.now }
        ensures { IfOk result (λ plan. (d : _) → arc_value plan ≡ get_or self.now place d) }
    {
        self.plans[place].clone()
    }
}
