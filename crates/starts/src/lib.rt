// A start: its conditions in their order, and what it stores.
#![tactic(auto)]

ghost use Rattle.std.specs.Prelude.{◌≡◌, ◌≤◌};
ghost use Rattle.base.specs.Chain.{first};
ghost use Rattle.refusal.specs.Number.{answer_of};
ghost use Rattle.rules.specs.Rules.{start};
ghost use Rattle.choice.specs.Table.{ChoicesIn, Linked};
ghost use Rattle.calls.specs.Work.{NeedOf, early_tests};
ghost use Rattle.calls.specs.Lent.{Does, Tables};
ghost use Rattle.calls.specs.Start.{LateReads, LateDone};

use choice::Choices;
use choices::make_choices;
use chosen::{Start, choose_row, need_once};
use refusal::Refusal;
use rules::{Monitor, Tested};
use sets::has;
use steps::put_row;

// Start up to 26, before any group is looked at. It asks for the bound of the two counts that it tests by and no more: a `Tested` would ask for all of
// test 20.
pub fn start_early(m: &Monitor, s: u8, t: u8) -> Result<(), Refusal>
    requires { (m.now.plant.skids ≤ 8) × (m.now.plant.tasks ≤ 16) }
    ensures { answer_of result ≡ first (early_tests m.now.plant.skid_tasks m.now.running m.now.plant.skids m.now.plant.tasks s t) }
{
    if m.plant.skids <= s {
        return Err(Refusal::NoSuchSkid);
    }
    if m.plant.tasks <= t {
        return Err(Refusal::NoSuchTask);
    }
    if !has(m.plant.skid_tasks[usize::from(s)], usize::from(t)) {
        return Err(Refusal::MayNotRun);
    }
    if m.task(usize::from(s)).is_some() {
        return Err(Refusal::AlreadyRuns);
    }
    Ok(())
}

// The rest of a start, whose choices are looked up in `made`: 27, 28, or the task runs and its groups get their choice, the skid's other groups `NONE`.
// That the groups are those of the task is a clause here and at `choices_for`, and no ghost field of a `Start`: it speaks of the plant, which is lent here
// in the record that is changed.
pub fn start_late(m: &mut Monitor, made: &Choices, start: &Start) -> Result<(), Refusal>
    requires reads { LateReads made.now start.now.skid start.now.task m.old }
    requires need { NeedOf m.old.plant start.now.task start.now.need }
    ensures { LateDone m.old start.now.skid start.now.task (answer_of result) m.new }
{
    let row = choose_row(m, made, start)?;
    let s = usize::from(start.skid);
    m.running[s] = start.task;
    put_row(&mut m.chosen, s, &row);
    Ok(())
}

// Start in a list, which keeps the table of choices and the groups of its tasks. The two are lent and not the whole `Kept`, of which it would have to
// promise that the rights granted stay as they were.
#[tactic(auto, using(calls::proofs::Ready::plant_valid, calls::proofs::Start::in_range))]
pub fn start_at(
    tested: &mut Tested,
    made: &mut Option<Choices>,
    needs: &mut [Option<u16>; 16],
    s: u8,
    t: u8,
) -> Result<(), Refusal>
    requires { Tables tested.old.monitor.plant made.old needs.old }
    ensures does { Does tested.old.monitor (start s t) (answer_of result) tested.new.monitor }
    ensures tables { Tables tested.old.monitor.plant made.new needs.new }
{
    let m = &mut tested.monitor;
    start_early(m, s, t)?;
    let start = Start {
        skid: s,
        task: t,
        need: need_once(&m.plant, needs, usize::from(t)),
    };
    let choices = made.get_or_insert_with(
        ||
            requires { Linked m.now.plant }
            ensures { ChoicesIn m.entry.now.plant result }
        { make_choices(&m.plant) },
    );
    start_late(m, choices, &start)
}
