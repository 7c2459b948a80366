// One request of a batch, on a record that has passed test 20. The batch keeps beside the record what the next request reads.
#![tactic(auto)]

ghost use Rattle.std.specs.Prelude.{◌≡◌, true};
ghost use Rattle.std.proofs.Props.{props};
ghost use Rattle.refusal.specs.Number.{answer_of};
ghost use Rattle.rules.specs.Rules.{start, stop};
ghost use Rattle.rules.specs.Record.{fresh};
ghost use Rattle.calls.specs.Lent.{call_by, Does, Keeps};

use calls::{Call, Kept, Request};
use fresh::fresh_monitor;
use gates::gate_granted;
use plant::Checked;
use refusal::{Refusal, answer, gate_answer};
use rules::Tested;
use starts::start_at;
use steps::{grant_row, put_row, set_at, stop_at};

// A batch under way: its record, and what it keeps beside it. The record is the fresh one of its plant at first.
#[derive(Drop)]
pub struct Batch {
    pub tested: Tested,
    pub kept: Kept,
    // `by`: the check is to see that the fact has one proof alone, which it does not see by itself of one made by cases, as `Tables` is.
    pub ghost keeps: { Keeps tested.monitor kept } by { Prim.hlevel props },
}

impl Batch {
    // Before the first request.
    pub fn new(checked: Checked) -> Self
        ensures { result.tested.monitor ≡ fresh checked.plant }
    {
        Batch {
            tested: Tested {
                monitor: fresh_monitor(checked.plant),
            },
            kept: Kept::new(),
        }
    }

    // A start, by which the skid has the rights of its task.
    fn start(&mut self, s: u8, t: u8) -> Result<(), Refusal>
        ensures { Does self.old.tested.monitor (start s t) (answer_of result) self.new.tested.monitor }
    {
        let kept = &mut self.kept;
        start_at(&mut self.tested, &mut kept.made, &mut kept.needs, s, t)?;
        grant_row(
            &mut kept.granted,
            &self.tested.monitor.plant,
            usize::from(s),
            usize::from(t),
        );
        Ok(())
    }

    // A stop, by which the skid has no rights.
    fn stop(&mut self, s: u8) -> Result<(), Refusal>
        ensures { Does self.old.tested.monitor (stop s) (answer_of result) self.new.tested.monitor }
    {
        stop_at(&mut self.tested, s)?;
        put_row(&mut self.kept.granted, usize::from(s), &[0; 8]);
        Ok(())
    }

    // One request, and the byte that is its answer. The arms are those of a request by itself (`call_at`, crate single), over what a batch keeps: a
    // trait for the three that differ would be longer than they are. With an enum of the three answers (accepted, not held, refused), which is made a
    // byte where it is stored, a mixed request of a batch takes 46.7 instructions, where its bar is 35.4.
    pub fn turn(&mut self, r: Request) -> u8
        ensures { Does self.old.tested.monitor (call_by r.kind r.a r.b r.c r.d) result self.new.tested.monitor }
    {
        match Call::try_from(r) {
            Ok(
                Call::Set {
                    skid,
                    task,
                    requirement,
                    level,
                },
            ) => answer(set_at(&mut self.tested, skid, task, requirement, level)),
            Ok(Call::Start { skid, task }) => answer(self.start(skid, task)),
            Ok(Call::Stop { skid }) => answer(self.stop(skid)),
            Ok(Call::Gate { skid, tank, right }) => gate_answer(gate_granted(
                &self.tested,
                &self.kept.granted,
                skid,
                tank,
                right,
            )),
            Err(refusal) => u8::from(refusal),
        }
    }
}
