// The monitor's calls by value: set, start, stop and gate, and a request of any kind. Each tests the record, whoever made it, before anything else.
#![tactic(auto)]

ghost use Rattle.std.specs.Prelude.{◌≡◌};
ghost use Rattle.rules.specs.Rules.{set, start, stop, gate};
ghost use Rattle.requests.specs.Calls.{step_of};
ghost use Rattle.requests.specs.Requests.{call_of};

use calls::{Call, Request};
use intact::check_intact;
use requests::Answered;
use rules::{Monitor, Tested};
use tested::advance;

// The request behind test 20. In an arm of `step` these lines copy the record once more: 300 instructions, and 1,680 bytes of stack.
fn answered(tested: Tested, r: Request) -> Answered
    ensures { result ≡ step_of tested.monitor (call_of r) }
{
    let (answer, after) = advance(tested, r);
    Answered {
        answer,
        monitor: after.monitor,
    }
}

// One request of any kind on any record whatever: test 20, and the request behind it.
pub fn step(m: Monitor, r: Request) -> Answered
    ensures { result ≡ step_of m (call_of r) }
{
    match check_intact(m) {
        Ok(tested) => answered(tested, r),
        Err(refusal) => Answered::refused(refusal, m),
    }
}

// Set: 20, 21, 22, 23, 24, or the level is stored.
pub fn set_level(m: Monitor, skid: u8, task: u8, requirement: u8, level: u8) -> Answered
    ensures { result ≡ step_of m (set skid task requirement level) }
{
    let call = Call::Set {
        skid,
        task,
        requirement,
        level,
    };
    step(m, Request::from(call))
}

// Start: 20, 21, 22, 25, 26, 27, 28, or the task runs.
pub fn start_task(m: Monitor, skid: u8, task: u8) -> Answered
    ensures { result ≡ step_of m (start skid task) }
{
    step(m, Request::from(Call::Start { skid, task }))
}

// Stop: 20, 21, or the skid runs nothing.
pub fn stop_task(m: Monitor, skid: u8) -> Answered
    ensures { result ≡ step_of m (stop skid) }
{
    step(m, Request::from(Call::Stop { skid }))
}

// Gate: 20, 21, 29, 30; 0 where the skid holds the right, else 33.
pub fn ask_gate(m: Monitor, skid: u8, tank: u8, right: u8) -> Answered
    ensures { result ≡ step_of m (gate skid tank right) }
{
    step(m, Request::from(Call::Gate { skid, tank, right }))
}
