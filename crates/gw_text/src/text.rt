ghost use Rattle.std.specs.Prelude.{◌≡◌, ℕ, ◌↔◌, List, Some, IfOk, IfSome, IsSome, string_bytes, encode_utf8_all, refl};
ghost use Rattle.std.specs.Cmp.{partial_equiv_from_equiv};
ghost use Rattle.std.specs.Cmp.Lexicographic.{slice_cmp, nat_list_eq_equiv, nat_list_cmp_total, texts_po, texts_ties};
ghost use Rattle.std.specs.Ordering.{nat_cmp};
ghost use Rattle.std.specs.Str.{IsUtf8, bytes_eq};
ghost use Rattle.gw_text.specs.model.Forms as forms;

use smallvec::SmallVec;
use std::alloc::{AllocError, Global};
use std::cmp::Ordering;
use std::marker::Model;
use std::str;

/// The most bytes of a text that stand in the text itself. Most names and words are shorter.
const SHORT: usize = 32;

/// A list of bytes. It is text in UTF-8 where it comes from JSON or from the words of a command.
pub struct Text {
    bytes: SmallVec<u8, SHORT>,
}

// Written out, so that crates above don't prove anew how its parts are dropped.
impl Drop for Text {
    fn drop(self) {
        let Text { bytes: _ } = self;
    }
}

impl Model for Text {
    ghost Value = { List ℕ };

    ghost view = { λ t. t.bytes.items };
}

impl Text {
    /// The bytes of `s`.
    pub fn of(alloc: Global, s: &str) -> Result<Self, AllocError>
        ensures { IfOk result (λ text. text ≡ s.now) }
    {
        Text::from_bytes(alloc, s.as_bytes())
    }

    /// Any bytes.
    pub fn from_bytes(alloc: Global, b: &[u8]) -> Result<Self, AllocError>
        ensures { IfOk result (λ text. text ≡ b.now) }
    {
        let bytes = SmallVec::from_slice(alloc, b)?;
        Ok(Text { bytes })
    }

    /// The bytes, of which a long text isn't copied.
    pub fn from_vec(bytes: Vec<u8>) -> Self
        ensures { result ≡ bytes.items }
    {
        Text {
            bytes: SmallVec::from_vec(bytes),
        }
    }

    /// The bytes, in UTF-8 or not.
    pub fn bytes(&self) -> &[u8]
        ensures { result.now ≡ self.now }
    {
        self.bytes.as_slice()
    }

    /// The text, where the bytes are UTF-8.
    pub fn as_str(&self) -> Option<&str>
        ensures utf8 { IsSome result ↔ IsUtf8 self.now }
        ensures value { IfSome result (λ s. s.now ≡ self.now) }
    {
        str::from_utf8(self.bytes.as_slice()).ok()
    }

    /// The same bytes once more.
    pub fn copy(&self, alloc: Global) -> Result<Self, AllocError>
        ensures { IfOk result (λ text. text ≡ self.now) }
    {
        Text::from_bytes(alloc, self.bytes.as_slice())
    }

    /// The text as it is printed: as it is in UTF-8, else each byte as the character of its number.
    #[tactic(auto, using(crate::proofs::Printing::printed_utf8, crate::proofs::Printing::printed_spelled))]
    pub fn printed(&self, alloc: Global) -> Result<String, AllocError>
        ensures { IfOk result (λ string. string_bytes string ≡ forms.printed self.now) }
    {
        match self.as_str() {
            Some(text) => String::from_str(alloc, text),
            None => self.spelled(alloc),
        }
    }

    // Each byte as the character of its number.
    fn spelled(&self, alloc: Global) -> Result<String, AllocError>
        ensures { IfOk result (λ string. string_bytes string ≡ encode_utf8_all self.now) }
    {
        let mut printed = String::new(alloc);
        'bytes: for byte in self.bytes.as_slice() {
            printed.push(char::from(*byte))?;
        }
        Ok(printed)
    }
}

impl PartialEq for Text {
    ghost eq = { bytes_eq };

    ghost laws = { partial_equiv_from_equiv nat_list_eq_equiv };

    fn eq(&self, other: &Text) -> bool {
        self.bytes() == other.bytes()
    }
}

impl Eq for Text {
    ghost laws = { nat_list_eq_equiv };
}

impl PartialOrd for Text {
    ghost partial_cmp = { λ x y. Some (slice_cmp nat_cmp x y) };

    ghost laws = { texts_po };

    fn partial_cmp(&self, other: &Text) -> Option<Ordering> {
        Some(self.cmp(other))
    }
}

impl Ord for Text {
    ghost cmp = { slice_cmp nat_cmp };

    ghost total = { nat_list_cmp_total };

    ghost matches_partial_cmp = { λ x y. refl };

    ghost matches_eq = { λ x y. texts_ties x y };

    fn cmp(&self, other: &Text) -> Ordering {
        self.bytes().cmp(other.bytes())
    }
}
