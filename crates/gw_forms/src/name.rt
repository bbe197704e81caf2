//! Names of objects and namespaces, and hostnames.
ghost use Rattle.gw_text.specs.model.Forms as forms;

use gw_json::TextForm;
use gw_text::{Host, Name as ObjectName, NamespaceName, TextFault};
use std::alloc::{AllocError, Global};

/// The name of an object.
#[derive(Clone, Copy)]
pub struct Name;

impl TextForm for Name {
    type Value = ObjectName;

    ghost most = { λ _. 253 };

    ghost value = { λ _. forms.name_of };

    fn most(&self) -> usize {
        253
    }

    fn value(&self, alloc: Global, text: &str) -> Result<Option<ObjectName>, AllocError> {
        match ObjectName::parse(alloc, text) {
            Ok(name) => Ok(Some(name)),
            Err(TextFault::Bad) => Ok(None),
            Err(TextFault::NoMemory) => Err(AllocError),
        }
    }
}

/// The name of a namespace.
#[derive(Clone, Copy)]
pub struct Namespace;

impl TextForm for Namespace {
    type Value = NamespaceName;

    ghost most = { λ _. 63 };

    ghost value = { λ _. forms.namespace_of };

    fn most(&self) -> usize {
        63
    }

    fn value(&self, alloc: Global, text: &str) -> Result<Option<NamespaceName>, AllocError> {
        match NamespaceName::parse(alloc, text) {
            Ok(namespace) => Ok(Some(namespace)),
            Err(TextFault::Bad) => Ok(None),
            Err(TextFault::NoMemory) => Err(AllocError),
        }
    }
}

/// A hostname, `*.` in front or not.
#[derive(Clone, Copy)]
pub struct Hostname;

impl TextForm for Hostname {
    type Value = Host;

    ghost most = { λ _. 253 };

    ghost value = { λ _. forms.host_of };

    fn most(&self) -> usize {
        253
    }

    fn value(&self, alloc: Global, text: &str) -> Result<Option<Host>, AllocError> {
        match Host::parse(alloc, text) {
            Ok(host) => Ok(Some(host)),
            Err(TextFault::Bad) => Ok(None),
            Err(TextFault::NoMemory) => Err(AllocError),
        }
    }
}
