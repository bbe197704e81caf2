//! A slice that was read, with both handles on it that are needed to put it.
ghost use Rattle.std.specs.Prelude.{◌≡◌, IfOk};
ghost use Rattle.gw_store.specs.ByService.{slice_digest};

use crate::service_slice::ServiceSlice;
use gw_objects::EndpointSlice;
use gw_text::{Incoming, NoMemory};
use std::alloc::Global;
use std::marker::Model;
use std::ops::Deref;

/// Two handles on one slice that isn't put yet: one goes among all slices, and one among those of its Service.
#[derive(Drop)]
pub struct IncomingSlice {
    slice: Incoming<EndpointSlice>,
    of_service: ServiceSlice,
}

impl Model for IncomingSlice {
    ghost use Rattle.std.specs.Prelude.{◌≡◌};
    ghost use Rattle.gw_text.specs.model.Slices.{EndpointSlice as Plain};

    ghost Value = { Plain };

    ghost view = { λ s. s.slice };

    ghost invariant = { λ s. s.of_service ≡ s.slice };
}

impl IncomingSlice {
    /// The slice, on the heap.
    pub fn new(alloc: Global, slice: EndpointSlice) -> Result<Self, NoMemory>
        ensures { IfOk result (λ s. s ≡ slice) }
    {
        let slice = Incoming::new(alloc, slice)?;
        let of_service = ServiceSlice::new(slice.share()?);
        Ok(IncomingSlice { slice, of_service })
    }

    /// Both handles once more on the same slice, which isn't copied.
    pub fn share(&self) -> Result<Self, NoMemory>
        ensures { IfOk result (λ s. s ≡ self.now) }
    {
        let slice = self.slice.share()?;
        let of_service = self.of_service.share()?;
        Ok(IncomingSlice { slice, of_service })
    }

    /// The digest of the Service that the slice is of.
    pub(crate) fn digest(&self) -> u64
        ensures { result ≡ slice_digest self.now }
    {
        self.of_service.digest()
    }

    /// Two handles on one slice, as `into_handles` gives them.
    pub(crate) fn of_handles(slice: Incoming<EndpointSlice>, of_service: ServiceSlice) -> Self
        requires { of_service ≡ slice }
        ensures { result ≡ slice }
    {
        IncomingSlice { slice, of_service }
    }

    /// Each handle by itself.
    pub(crate) fn into_handles(self) -> (Incoming<EndpointSlice>, ServiceSlice)
        ensures slice { result.0 ≡ self }
        ensures of_service { result.1 ≡ self }
    {
        (self.slice, self.of_service)
    }
}

impl Deref for IncomingSlice {
    type Target = EndpointSlice;

    ghost deref_gives = { λ x y. y ≡ x };

    fn deref(&self) -> &EndpointSlice {
        &self.slice
    }
}
