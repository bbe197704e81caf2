ghost use Rattle.std.specs.Prelude.{◌≡◌, IfOk};
ghost use Rattle.gw_text.specs.model.Fields.{same_field_name};

use crate::list::List;
use crate::text::Text;
use std::alloc::{AllocError, Global};
use std::marker::Model;

/// A field of an HTTP message.
pub struct Field {
    pub name: Text,
    pub value: Text,
}

// Written out, so that crates above don't prove anew how its parts are dropped.
impl Drop for Field {
    fn drop(self) {
        let Field { name: _, value: _ } = self;
    }
}

/// Fields in their order.
pub type Fields = List<Field>;

/// Names of fields, in their order.
pub type Names = List<Text>;

impl Model for Field {
    ghost use Rattle.gw_text.specs.model.Fields.{Field as Plain};

    ghost Value = { Plain };

    ghost view = { λ f. record { name = f.name; value = f.value } };
}

impl Field {
    /// Whether the field has this name, in upper or lower case.
    pub fn is_named(&self, name: &[u8]) -> bool
        ensures { result ≡ same_field_name self.now.name name.now }
    {
        self.name.bytes().eq_ignore_ascii_case(name)
    }

    /// The same field once more.
    pub fn copy(&self, alloc: Global) -> Result<Self, AllocError>
        ensures { IfOk result (λ field. field ≡ self.now) }
    {
        Ok(Field {
            name: self.name.copy(alloc)?,
            value: self.value.copy(alloc)?,
        })
    }
}
