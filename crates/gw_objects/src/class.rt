ghost use Rattle.gw_json.specs.Words.{Gives};
ghost use Rattle.gw_json.specs.Fields.{node_of};
ghost use Rattle.gw_objects.specs.Classes as classes;

use crate::fields::{CONTROLLER_NAME, PARAMETERS_REF};
use gw_forms as forms;
use gw_json::{Cursor, Refusal};
use gw_text::{Meta, Text};
use std::alloc::Global;
use std::marker::Model;

/// A GatewayClass.
pub struct GatewayClass {
    pub meta: Meta,
    /// The controller that manages Gateways of this class.
    pub controller_name: Text,
    pub parameters_ref: bool,
}

impl Model for GatewayClass {
    ghost use Rattle.gw_text.specs.model.GatewayClasses.{GatewayClass as Plain};

    ghost Value = { Plain };

    ghost view = { λ c. record { meta = c.meta; controller_name = c.controller_name; parameters_ref = c.parameters_ref } };
}

// Written out, so that crates above don't prove anew how its parts are dropped.
impl Drop for GatewayClass {
    fn drop(self) {
        let GatewayClass {
            meta: _,
            controller_name: _,
            parameters_ref: _,
        } = self;
    }
}

/// The GatewayClass of this metadata. `at` is the whole object.
#[tactic(auto, unfolding(crate::specs::Classes::class_of))]
pub fn read_class(alloc: Global, meta: Meta, at: &Cursor<'_>) -> Result<GatewayClass, Refusal>
    ensures { Gives (λ x. x) result (classes.class_of meta (node_of at.now)) }
{
    let spec = at.spec(alloc)?;
    let controller_name = spec.needed(alloc, CONTROLLER_NAME, forms::Word)?;
    let parameters_ref = spec.is_given(alloc, PARAMETERS_REF)?;
    Ok(GatewayClass {
        meta,
        controller_name,
        parameters_ref,
    })
}
