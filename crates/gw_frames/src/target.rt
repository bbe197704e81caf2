ghost use Rattle.std.specs.Prelude.{IfOk, option_map};
ghost use Rattle.gw_frames.specs.model.Heads.{IsTarget};
ghost use Rattle.gw_frames.specs.Targets.{target_of};

use gw_text::NoMemory;
use http_uri::{Uri, UriError};
use std::alloc::{AllocError, Global};

/// The target that the text spells, if it does.
pub fn read_target(alloc: Global, text: &[u8]) -> Result<Option<Uri>, NoMemory>
    ensures { IfOk result (λ t. IsTarget text.now (option_map target_of t)) }
{
    match Uri::from_bytes(alloc, text) {
        Ok(uri) => Ok(Some(uri)),
        Err(UriError::Invalid(_)) => Ok(None),
        Err(UriError::OutOfMemory) => Err(AllocError),
    }
}
