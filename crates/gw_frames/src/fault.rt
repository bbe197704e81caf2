ghost use Rattle.std.specs.Prelude.{◌≡◌};
ghost use Rattle.gw_frames.specs.model.Requests.{fault_code};

use gw_messages::fault::BodyFault;

/// The code of a body's fault.
pub fn fault_code(fault: BodyFault) -> u16
    ensures { result ≡ fault_code fault }
{
    match fault {
        BodyFault::Malformed => 400,
        BodyFault::LongTrailers => 431,
        BodyFault::TooBig => 413,
    }
}
