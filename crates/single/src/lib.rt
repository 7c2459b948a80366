// One request by itself, on a record that has passed test 20. It keeps nothing: a set, a stop and a gate make nothing that they do not read.
#![tactic(auto)]

ghost use Rattle.refusal.specs.Number.{answer_of};
ghost use Rattle.rules.specs.Rules.{start};
ghost use Rattle.calls.specs.Lent.{call_by, Does};

use calls::{Call, Request};
use chosen::{Start, need_of};
use gates::gate_at;
use refusal::{Refusal, answer, gate_answer};
use rules::Tested;
use search::choices_for;
use starts::{start_early, start_late};
use steps::{set_at, stop_at};

// A start by itself searches for the tanks of its own groups and levels: a table of all choices pays from the second start of a list on.
#[tactic(auto, using(calls::proofs::Ready::plant_valid, calls::proofs::Start::in_range))]
fn start_alone(tested: &mut Tested, s: u8, t: u8) -> Result<(), Refusal>
    ensures { Does tested.old.monitor (start s t) (answer_of result) tested.new.monitor }
{
    let m = &mut tested.monitor;
    start_early(m, s, t)?;
    let start = Start {
        skid: s,
        task: t,
        need: need_of(&m.plant, usize::from(t)),
    };
    let made = choices_for(m, &start);
    start_late(m, &made, &start)
}

// One request by itself. The answer is the byte that C and an answer buffer have. The arms are those of a request of a list (`turn`, crate turns), which
// reads and changes what the list keeps: a trait for the three that differ would be longer than they are.
pub fn call_at(tested: &mut Tested, r: Request) -> u8
    ensures { Does tested.old.monitor (call_by r.kind r.a r.b r.c r.d) result tested.new.monitor }
{
    match Call::try_from(r) {
        Ok(
            Call::Set {
                skid,
                task,
                requirement,
                level,
            },
        ) => answer(set_at(tested, skid, task, requirement, level)),
        Ok(Call::Start { skid, task }) => answer(start_alone(tested, skid, task)),
        Ok(Call::Stop { skid }) => answer(stop_at(tested, skid)),
        Ok(Call::Gate { skid, tank, right }) => gate_answer(gate_at(tested, skid, tank, right)),
        Err(refusal) => u8::from(refusal),
    }
}
