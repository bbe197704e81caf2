//! EndpointSlices with the digests of their Services.
//! A digest stands for a Service, since numbers are compared at once. Services may share one.
ghost use Rattle.std.specs.Prelude.{◌≡◌, [], codes, fold, unwrap_or, IfOk};
ghost use Rattle.std.specs.Ordering.{nat_cmp, ordering_then};
ghost use Rattle.gw_text.specs.model.Names.{key_order};
ghost use Rattle.gw_text.specs.model.Selectors.{label_of};
ghost use Rattle.gw_text.specs.model.World.{slice_key};
ghost use Rattle.gw_store.specs.ByService as rules;

use gw_labels::Labels;
use gw_objects::EndpointSlice;
use gw_text::{Incoming, Key, NoMemory};
use std::cmp::Ordering;
use std::marker::Model;
use std::ops::Deref;

/// A handle on a slice, and the digest of the Service that the slice is of.
#[derive(Drop)]
pub struct ServiceSlice {
    digest: u64,
    slice: Incoming<EndpointSlice>,
}

impl Model for ServiceSlice {
    ghost use Rattle.std.specs.Prelude.{◌≡◌};
    ghost use Rattle.gw_text.specs.model.Slices.{EndpointSlice as Plain};
    ghost use Rattle.gw_store.specs.ByService.{slice_digest};

    ghost Value = { Plain };

    ghost view = { λ s. s.slice };

    ghost invariant = { λ s. s.digest ≡ slice_digest s.slice };
}

impl ServiceSlice {
    /// The slice, whose digest is taken here once for all.
    pub fn new(slice: Incoming<EndpointSlice>) -> Self
        ensures { result ≡ slice }
    {
        let digest = slice_digest(&slice);
        ServiceSlice { digest, slice }
    }

    /// One handle more on the same slice.
    pub fn share(&self) -> Result<Self, NoMemory>
        ensures { IfOk result (λ s. s ≡ self.now) }
    {
        Ok(ServiceSlice {
            digest: self.digest,
            slice: self.slice.share()?,
        })
    }

    /// The digest of the Service that the slice is of.
    pub fn digest(&self) -> u64
        ensures { result ≡ rules.slice_digest self.now }
    {
        self.digest
    }

    /// How the slice stands to one of this digest and key.
    pub fn compare(&self, digest: u64, key: &Key) -> Ordering
        ensures { result ≡ ordering_then (nat_cmp (rules.slice_digest self.now) digest) (key_order (slice_key self.now) key.now) }
    {
        match self.digest.cmp(&digest) {
            Ordering::Less => Ordering::Less,
            Ordering::Equal => self.slice.meta.key.compare(key),
            Ordering::Greater => Ordering::Greater,
        }
    }
}

impl Deref for ServiceSlice {
    type Target = EndpointSlice;

    ghost deref_gives = { λ x y. y ≡ x };

    fn deref(&self) -> &EndpointSlice {
        &self.slice
    }
}

fn digest_of(start: u64, text: &[u8]) -> u64
    ensures { result ≡ fold rules.one_more start text.now }
{
    let mut digest = start;
    for byte in text {
        digest = one_more(digest, *byte);
    }
    digest
}

fn one_more(digest: u64, byte: u8) -> u64
    ensures { result ≡ rules.one_more digest byte }
{
    digest
        .wrapping_mul(1_099_511_628_211)
        .wrapping_add(u64::from(byte))
}

/// The digest of the Service of this namespace and name.
#[tactic(auto, unfolding(crate::specs::ByService::service_digest))]
pub fn service_digest(namespace: &[u8], name: &[u8]) -> u64
    ensures { result ≡ rules.service_digest namespace.now name.now }
{
    digest_of(one_more(digest_of(0, namespace), b'/'), name)
}

fn service_name(labels: &Labels) -> &[u8]
    ensures { result.now ≡ unwrap_or (label_of (codes "kubernetes.io/service-name") labels.now) [] }
{
    match labels.get("kubernetes.io/service-name") {
        Some(name) => name.as_bytes(),
        None => b"",
    }
}

/// The digest of the Service that the slice is of.
#[tactic(auto, unfolding(crate::specs::ByService::slice_digest))]
pub fn slice_digest(slice: &EndpointSlice) -> u64
    ensures { result ≡ rules.slice_digest slice.now }
{
    service_digest(
        slice.meta.key.namespace.bytes(),
        service_name(&slice.labels),
    )
}
