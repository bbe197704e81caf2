ghost use Rattle.std.specs.Prelude.{◌≡◌, IfOk};
ghost use Rattle.gw_text.specs.Parsing.{Parses};
ghost use Rattle.gw_text.specs.model.Forms as forms;

use crate::name::{TextFault, is_precise_hostname, wildcard_rest};
use crate::text::Text;
use std::alloc::{AllocError, Global};
use std::marker::Model;

/// A hostname of a listener, a Route or a filter. A wildcard `*.example.com` has the text after its
/// `*.`, here `example.com`.
pub struct Host {
    pub wild: bool,
    pub text: Text,
}

impl Model for Host {
    ghost use Rattle.gw_text.specs.model.Hostnames.{Host as Plain};

    ghost Value = { Plain };

    ghost view = { λ h. record { wild = h.wild; text = h.text } };
}

// Written out, so that crates above don't prove anew how its parts are dropped.
impl Drop for Host {
    fn drop(self) {
        let Host { wild: _, text: _ } = self;
    }
}

impl Host {
    /// The hostname that a text names, as `example.com` or `*.example.com`.
    pub fn parse(alloc: Global, s: &str) -> Result<Self, TextFault>
        ensures value { Parses (forms.host_of s.now) result }
        ensures text { IfOk result (λ host. forms.host_text host ≡ s.now) }
    {
        let bytes = s.as_bytes();
        if is_precise_hostname(bytes) {
            let text = Text::from_bytes(alloc, bytes)?;
            return Ok(Host { wild: false, text });
        }
        let Some(rest) = wildcard_rest(bytes) else {
            return Err(TextFault::Bad);
        };
        let text = Text::from_bytes(alloc, rest)?;
        Ok(Host { wild: true, text })
    }

    /// The text as it was written, with the `*.` of a wildcard.
    pub fn print(&self, alloc: Global) -> Result<Text, AllocError>
        ensures { IfOk result (λ text. text ≡ forms.host_text self.now) }
    {
        let mut bytes = Vec::new(alloc);
        if self.wild {
            bytes.extend_from_slice(b"*.")?;
        }
        bytes.extend_from_slice(self.text.bytes())?;
        Ok(Text::from_vec(bytes))
    }

    /// The same hostname once more.
    pub fn copy(&self, alloc: Global) -> Result<Self, AllocError>
        ensures { IfOk result (λ host. host ≡ self.now) }
    {
        let text = self.text.copy(alloc)?;
        Ok(Host {
            wild: self.wild,
            text,
        })
    }
}
