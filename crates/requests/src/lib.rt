// The answer to a request, by value: its record, the definitions of the calls and of opening, and their laws.
#![tactic(auto)]

ghost use Rattle.std.specs.Prelude.{◌≡◌};
ghost use Rattle.requests.specs.Calls.{refused};

use refusal::Refusal;
use rules::Monitor;

// The answer to a call, and the monitor after it, which is there whatever the answer. The answer is 01's number, as C and the answer bytes have it.
// A function that accepts a request writes both fields: `open` has another monitor where it accepts, and `queue` may serve only there, so a function of a
// result and a monitor would want the monitor before it is known whether the request is refused.
#[derive(Clone, Copy)]
pub struct Answered {
    pub answer: u8,
    pub monitor: Monitor,
}

impl Answered {
    // The answer to a request that is refused.
    pub fn refused(refusal: Refusal, monitor: Monitor) -> Answered
        ensures { result ≡ refused refusal monitor }
    {
        Answered {
            answer: u8::from(refusal),
            monitor,
        }
    }
}
