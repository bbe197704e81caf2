ghost use Rattle.std.specs.Prelude.{◌≡◌, ◌↔◌, ◌++◌, ◌==◌, codes, nat_eq, IfOk, IsTrue};
ghost use Rattle.std.proofs.Common.{rules};
ghost use Rattle.std.specs.Cmp.Lexicographic.{pointwise, slice_cmp};
ghost use Rattle.std.specs.Cmp.Rules.{comparing};
ghost use Rattle.std.specs.List.{starts_with};
ghost use Rattle.std.specs.Ordering.{nat_cmp, is_lt, on, eq_of_both};
ghost use Rattle.std.specs.declared.cmp.Ordering.TheVariants.{Equal};
ghost use Rattle.gw_text.specs.Parsing.{Parses};
ghost use Rattle.gw_text.specs.model.Forms as forms;
ghost use Rattle.gw_text.specs.model.Names.{separator, joined, key_order, same_key, is_in_namespace, cluster_key};

use crate::name::{Name, NamespaceName, TextFault, is_name, is_namespace};
use crate::text::Text;
use std::alloc::{AllocError, Global};
use std::cmp::Ordering;
use std::marker::Model;

/// The namespace and the name of an object. The namespace is empty for kinds without one; each has its form, so that
/// keys with one printed text are one key.
pub struct Key {
    pub namespace: Text,
    pub name: Text,
}

impl Model for Key {
    ghost use Rattle.std.specs.Prelude.{IsTrue};
    ghost use Rattle.gw_text.specs.model.Names.{Key as Plain};
    ghost use Rattle.gw_text.specs.model.Forms.{is_key};

    ghost Value = { Plain };

    ghost view = { λ k. record { namespace = k.namespace; name = k.name } };

    ghost invariant = { λ k. IsTrue (is_key (record { namespace = k.namespace; name = k.name })) };
}

// Written out, so that crates above don't prove anew how its parts are dropped.
impl Drop for Key {
    fn drop(self) {
        let Key {
            namespace: _,
            name: _,
        } = self;
    }
}

impl Key {
    /// The key of the object of this name in this namespace.
    pub fn new(namespace: NamespaceName, name: Name) -> Self
        ensures { result ≡ record { namespace = namespace; name = name } }
    {
        Key {
            namespace: namespace.into_text(),
            name: name.into_text(),
        }
    }

    /// The key of the object of this name, of a kind without namespaces.
    pub fn of_cluster(alloc: Global, name: Name) -> Self
        ensures { result ≡ cluster_key name }
    {
        Key::new(NamespaceName::none(alloc), name)
    }

    /// The key that a text `namespace/name` names.
    pub fn parse(alloc: Global, s: &str) -> Result<Self, TextFault>
        ensures value { Parses (forms.key_of s.now) result }
        ensures text { IfOk result (λ key. joined key ≡ s.now) }
    {
        let Some((namespace, name)) = s.split_once('/') else {
            return Err(TextFault::Bad);
        };
        if !is_namespace(namespace.as_bytes()) || !is_name(name.as_bytes()) {
            return Err(TextFault::Bad);
        }
        let namespace = Text::of(alloc, namespace)?;
        let name = Text::of(alloc, name)?;
        Ok(Key { namespace, name })
    }

    /// `namespace/name`, or the name alone where there is no namespace.
    pub fn print(&self, alloc: Global) -> Result<Text, AllocError>
        ensures { IfOk result (λ text. text ≡ joined self.now) }
    {
        let mut bytes = self.namespace.bytes().to_vec(alloc)?;
        bytes.extend_from_slice(self.separator())?;
        bytes.extend_from_slice(self.name.bytes())?;
        Ok(Text::from_vec(bytes))
    }

    /// The order of the printed texts, byte by byte. Keys with one text are one key.
    #[tactic(auto, using(crate::proofs::Keys::order_by_name))]
    pub fn compare(&self, other: &Key) -> Ordering
        ensures order { result ≡ key_order self.now other.now }
        ensures equal { (result ≡ Equal) ↔ (self.now ≡ other.now) }
    {
        // Most objects stand in one namespace, where the names decide.
        if self.is_beside(other) {
            self.name.bytes().cmp(other.name.bytes())
        } else {
            self.compare_texts(other)
        }
    }

    // Whether both objects stand in one namespace, or both in none.
    fn is_beside(&self, other: &Key) -> bool
        ensures value { IsTrue result ↔ (self.now.namespace ≡ other.now.namespace) }
        ensures own_form { IsTrue (forms.is_key self.now) }
        ensures other_form { IsTrue (forms.is_key other.now) }
    {
        self.namespace.bytes() == other.namespace.bytes()
    }

    fn compare_texts(&self, other: &Key) -> Ordering
        ensures { result ≡ key_order self.now other.now }
    {
        let left = self
            .namespace
            .bytes()
            .iter()
            .chain(self.separator())
            .chain(self.name.bytes());
        let right = other
            .namespace
            .bytes()
            .iter()
            .chain(other.separator())
            .chain(other.name.bytes());
        left.cmp(right)
    }

    /// Whether the printed text stands before those of all objects of the namespace.
    pub fn is_before(&self, namespace: &Text) -> bool
        ensures { result ≡ is_lt (slice_cmp nat_cmp (joined self.now) (namespace.now ++ codes "/")) }
    {
        let text = self
            .namespace
            .bytes()
            .iter()
            .chain(self.separator())
            .chain(self.name.bytes());
        text.cmp(namespace.bytes().iter().chain(b"/")).is_lt()
    }

    /// Whether the object of this key stands in the namespace. Its printed text then begins with it and a slash.
    #[tactic(auto, using(crate::proofs::Keys::key_in_by_text))]
    pub fn is_in(&self, namespace: &Text) -> bool
        ensures value { result ≡ is_in_namespace namespace.now self.now }
        ensures text { result ≡ starts_with nat_eq (joined self.now) (namespace.now ++ codes "/") }
    {
        !namespace.bytes().is_empty() && self.namespace == *namespace
    }

    fn separator(&self) -> &'static [u8]
        ensures { result.now ≡ separator self.now.namespace }
    {
        if self.namespace.bytes().is_empty() {
            b""
        } else {
            b"/"
        }
    }

    /// The key itself: its texts have their forms.
    pub fn formed(&self) -> &Key
        ensures value { result.now ≡ self.now }
        ensures form { IsTrue (forms.is_key self.now) }
    {
        let _name = &self.name;
        self
    }

    /// The same key once more.
    pub fn copy(&self, alloc: Global) -> Result<Self, AllocError>
        ensures { IfOk result (λ key. key ≡ self.now) }
    {
        let namespace = self.namespace.copy(alloc)?;
        let name = self.name.copy(alloc)?;
        Ok(Key { namespace, name })
    }

    /// The name of the namespace, or none.
    pub fn namespace_name(&self, alloc: Global) -> Result<NamespaceName, AllocError>
        ensures { IfOk result (λ namespace. namespace ≡ self.now.namespace) }
    {
        Ok(NamespaceName::of_text(self.namespace.copy(alloc)?))
    }
}

impl PartialEq for Key {
    ghost eq = { same_key };

    ghost laws = { Prim.search (comparing, rules) };

    fn eq(&self, other: &Key) -> bool {
        self.namespace == other.namespace && self.name == other.name
    }
}
