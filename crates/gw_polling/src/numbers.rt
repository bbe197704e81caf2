ghost use Rattle.std.specs.Prelude.{◌≡◌, ℕ, List, [], ◌∷◌, ◌++◌, IfOk, OnOk, OnErr};

use gw_text::NoMemory;
use std::alloc::Global;
use std::marker::Model;

/// Numbers of connections.
#[derive(Drop)]
pub struct Numbers {
    items: Vec<u64>,
}

impl Model for Numbers {
    ghost Value = { List ℕ };

    ghost view = { λ n. n.items.items };
}

impl Numbers {
    /// No numbers.
    pub fn new(alloc: Global) -> Self
        ensures { result ≡ [] }
    {
        Numbers {
            items: Vec::new(alloc),
        }
    }

    /// These numbers.
    pub fn of(alloc: Global, numbers: &[u64]) -> Result<Self, NoMemory>
        ensures { IfOk result (λ made. made ≡ numbers.now) }
    {
        Ok(Numbers {
            items: numbers.to_vec(alloc)?,
        })
    }

    /// One more number.
    pub fn push(&mut self, number: u64) -> Result<(), NoMemory>
        ensures ok { OnOk result (self.new ≡ self.old ++ number ∷ []) }
        ensures err { OnErr result (self.new ≡ self.old) }
    {
        self.items.push(number)?;
        Ok(())
    }

    /// The numbers, in the order in which they were put in.
    pub fn as_slice(&self) -> &[u64]
        ensures { result.now ≡ self.now }
    {
        self.items.as_slice()
    }
}
