//! A request whose bytes are given whole.
ghost use Rattle.std.specs.Prelude.{◌≡◌, ◌∷◌, [], false, None, IfOk, IfSome};
ghost use Rattle.gw_frames.specs.model.Requests.{Request as Plain};
ghost use Rattle.gw_frames.specs.Inlets.{is_over};
ghost use Rattle.gw_requests.specs.Requests.{Gave, Holds, IsRequestOf, Took};

use gw_frames::{Inlet, Request, Step};
use gw_text::NoMemory;
use std::alloc::Global;

/// The request that the bytes are, if they are one: whole, and without a byte more.
pub fn whole_request(alloc: Global, bytes: &[u8]) -> Result<Option<Request>, NoMemory>
    ensures { IfOk result (IsRequestOf bytes.now) }
{
    let Some((_, front)) = bytes.split_last() else {
        return Ok(None);
    };
    if !requests(alloc, front)?.as_slice().is_empty() {
        return Ok(None);
    }
    Ok(only(requests(alloc, bytes)?))
}

// The only one of the requests.
fn only(mut requests: Vec<Request>) -> Option<Request>
    ensures some { IfSome result (λ q. requests.items ≡ q ∷ []) }
    ensures none { result ≡ None → (q : Plain) → requests.items ≡ q ∷ [] → ⊥ }
{
    if requests.len() == 1 {
        requests.pop()
    } else {
        None
    }
}

// The requests that the bytes hold.
fn requests(alloc: Global, bytes: &[u8]) -> Result<Vec<Request>, NoMemory>
    ensures { IfOk result (λ requests. Holds bytes.now requests.items) }
{
    let mut requests = Vec::new(alloc);
    let mut inlet = inlet_of(alloc, bytes)?;
    'steps: while take_step(&mut inlet, &mut requests)? {}
    Ok(requests)
}

fn inlet_of(alloc: Global, bytes: &[u8]) -> Result<Inlet, NoMemory>
    ensures gave { IfOk result (λ inlet. Gave inlet bytes.now []) }
    ensures over { IfOk result (λ inlet. is_over inlet ≡ false) }
{
    let mut inlet = Inlet::new(alloc);
    inlet.feed(bytes)?;
    Ok(inlet)
}

// Takes the request of the next step, if it gives one, and says whether a further step comes.
fn take_step(inlet: &mut Inlet, requests: &mut Vec<Request>) -> Result<bool, NoMemory>
    requires { is_over inlet.old ≡ false }
    ensures took { IfOk result (λ more. Took more inlet.old inlet.new requests.old.items requests.new.items) }
    ensures over { is_over inlet.new ≡ false }
{
    match inlet.next()? {
        Step::Ask(request) => {
            requests.push(Box::into_inner(request))?;
            Ok(true)
        }
        Step::Continue => Ok(true),
        Step::Need | Step::Bad(_) | Step::End | Step::Truncated => Ok(false),
    }
}
