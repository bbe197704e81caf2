//! The nodes of fields.
ghost use Rattle.std.specs.Prelude.{◌≡◌, ◌↔◌, ◌++◌, [], IsTrue, IfOk, OnOk, string_bytes};
ghost use Rattle.gw_json.specs.Paths.{member_path, item_path};
ghost use Rattle.gw_json.specs.PathTexts.{path_bytes};

use arrayvec::ArrayString;
use itoa::Buffer;
use std::alloc::{AllocError, Global};
use std::marker::Model;

/// The most bytes of a path that stand in the path itself. Paths are written for fields that are as they must be, too,
/// and so take no memory of their own as a rule.
const SHORT: usize = 48;

/// The text of a path.
#[derive(Debug, Drop)]
enum PathText {
    Short(ArrayString<SHORT>),
    Long(String),
}

/// Where a field stands in its object, as `spec.listeners[0].port`. The object itself has the empty path.
#[derive(Debug, Drop)]
pub struct Path {
    text: PathText,
}

impl Model for Path {
    ghost use Rattle.std.specs.Prelude.{List, ℕ};
    ghost use Rattle.gw_json.specs.PathTexts.{path_bytes};

    ghost Value = { List ℕ };

    ghost view = { λ p. path_bytes p.text };
}

impl Path {
    /// The path of this text.
    pub fn of(alloc: Global, text: &str) -> Result<Path, AllocError>
        ensures { IfOk result (λ p. p ≡ text.now) }
    {
        let text = match ArrayString::from(text) {
            Ok(short) => PathText::Short(short),
            Err(_) => PathText::Long(String::from_str(alloc, text)?),
        };
        Ok(Path { text })
    }

    /// The text that is printed.
    #[inline(always)]
    pub fn as_str(&self) -> &str
        ensures { result.now ≡ self.now }
    {
        match &self.text {
            PathText::Short(short) => short.as_str(),
            PathText::Long(long) => long.as_str(),
        }
    }

    /// Whether it is the path of the object itself.
    #[inline(always)]
    pub fn is_empty(&self) -> bool
        ensures { IsTrue result ↔ (self.now ≡ []) }
    {
        self.as_str().is_empty()
    }

    /// The same path once more.
    #[inline(always)]
    pub fn copied(&self, alloc: Global) -> Result<Path, AllocError>
        ensures { IfOk result (λ p. p ≡ self.now) }
    {
        let text = match &self.text {
            PathText::Short(short) => PathText::Short(*short),
            PathText::Long(long) => PathText::Long(String::from_str(alloc, long.as_str())?),
        };
        Ok(Path { text })
    }

    /// The path of the member `name` of the object at this path.
    #[inline(always)]
    pub fn member(&self, alloc: Global, name: &str) -> Result<Path, AllocError>
        ensures { IfOk result (λ p. p ≡ member_path self.now name.now) }
    {
        if self.is_empty() {
            return Path::of(alloc, name);
        }
        let mut path = self.copied(alloc)?;
        path.push_str(alloc, ".")?;
        path.push_str(alloc, name)?;
        Ok(path)
    }

    /// The path of the item `index` of the list at this path; the first item has the index 0.
    pub fn item(&self, alloc: Global, index: usize) -> Result<Path, AllocError>
        ensures { IfOk result (λ p. p ≡ item_path self.now index) }
    {
        let mut digits = Buffer::new();
        let mut path = self.copied(alloc)?;
        path.push_str(alloc, "[")?;
        path.push_str(alloc, digits.format(index))?;
        path.push_str(alloc, "]")?;
        Ok(path)
    }

    #[inline(always)]
    fn push_str(&mut self, alloc: Global, more: &str) -> Result<(), AllocError>
        ensures { OnOk result (self.new ≡ self.old ++ more.now) }
    {
        let long = match &mut self.text {
            PathText::Long(long) => return long.push_str(more),
            PathText::Short(short) => match short.try_push_str(more) {
                Ok(()) => return Ok(()),
                Err(_) => both(alloc, short.as_str(), more)?,
            },
        };
        self.text = PathText::Long(long);
        Ok(())
    }
}

// Both texts, one after the other, with room for some more.
fn both(alloc: Global, first: &str, second: &str) -> Result<String, AllocError>
    ensures { IfOk result (λ text. string_bytes text ≡ first.now ++ second.now) }
{
    let room = first.len().saturating_add(second.len()).saturating_mul(2);
    let mut text = String::with_capacity(alloc, room)?;
    text.push_str(first)?;
    text.push_str(second)?;
    Ok(text)
}
