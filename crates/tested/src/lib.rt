// A request by value on a record that has passed test 20.
#![tactic(auto)]

ghost use Rattle.std.specs.Prelude.{◌≡◌};
ghost use Rattle.requests.specs.Calls.{step_of};
ghost use Rattle.requests.specs.Requests.{call_of};

use calls::Request;
use rules::Tested;
use single::call_at;

// The answer, and the record after the call. The record is copied beside its answer once and changed there: a tuple that is made behind the call copies
// it once more, 200 instructions of a queue's request.
pub fn advance(tested: Tested, r: Request) -> (u8, Tested)
    ensures { record { answer = result.0; monitor = result.1.monitor } ≡ step_of tested.monitor (call_of r) }
{
    let mut stepped = (0, tested);
    stepped.0 = call_at(&mut stepped.1, r);
    stepped
}
