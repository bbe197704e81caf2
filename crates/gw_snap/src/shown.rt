ghost use Rattle.std.specs.Prelude.{◌≡◌, IfOk};
ghost use Rattle.std.specs.Arc.{arc_value};

use gw_lists::Reached;
use gw_text::NoMemory;
use std::sync::Arc;

/// A value with the list for which it stands.
#[derive(Drop)]
pub struct Shown<T: Drop, C> {
    pub value: Arc<T>,
    pub list: Reached<C>,
}

impl<T: Drop, C> Shown<T, C> {
    /// The same value and list, shared.
    pub fn again(&self) -> Result<Self, NoMemory>
        ensures value { IfOk result (λ s. arc_value s.value ≡ arc_value self.now.value) }
        ensures list { IfOk result (λ s. s.list ≡ self.now.list) }
    {
        let value = self.value.clone()?;
        let list = self.list.again();
        Ok(Shown { value, list })
    }
}
