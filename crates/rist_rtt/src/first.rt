//! The echoes of a compound that a receiver or a sender goes by: its first response and its first request.
ghost use Rattle.std.specs.Prelude.{◌≡◌, option_map};
ghost use Rattle.rist_rtt.specs.Echo.{echo_seen, echoes_in, first_request, first_response};

use crate::echo::Echo;
use crate::reading::echoes;
use rtcp_compound::Compound;

/// The first response, which is the one that gives a sample.
pub fn first_response<'a>(compound: &Compound<'a>) -> Option<Echo<'a>>
    ensures value { option_map echo_seen result ≡ first_response (echoes_in compound.now) }
{
    for echo in echoes(compound) {
        if echo.answer {
            return Some(echo);
        }
    }
    None
}

/// The first request, which is the one that is answered, whatever SSRC it names.
pub fn first_request<'a>(compound: &Compound<'a>) -> Option<Echo<'a>>
    ensures value { option_map echo_seen result ≡ first_request (echoes_in compound.now) }
{
    for echo in echoes(compound) {
        if !echo.answer {
            return Some(echo);
        }
    }
    None
}
