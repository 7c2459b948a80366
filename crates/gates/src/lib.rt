// The work of a gate on a record that has passed test 20: by the record, or in a list by the rights granted.
// The bound of an index is a clause and no type: a type would be made of a number at each call and taken apart at each array.
// Skid, tank and right (s, o, r) are together in `Call::Gate` and no struct here: each is looked up by itself. A struct of the three is no plainer:
// it would be made in each arm of a call and for each entry of the list of rights, and taken apart at each test.
#![tactic(auto)]

ghost use Rattle.std.specs.Prelude.{◌≡◌, true, ℕ, ◌<◌, get_or};
ghost use Rattle.refusal.specs.Number.{answer_of, gate_answer_of};
ghost use Rattle.rules.specs.Rules.{View, gate, refusal};
ghost use Rattle.calls.specs.Lent.{Does};
ghost use Rattle.calls.specs.Work.{task_known, Granted, granted_in, held_in};

use calls::check_present;
use plant::{Plant, Right};
use refusal::Refusal;
use rules::{Monitor, Tested, chosen_at};

// Whether the skid, the tank and the right of a gate are there.
fn check_gate(p: &Plant, s: u8, o: u8, r: u8) -> Result<(), Refusal>
    ensures { (vs : ℕ → View) → answer_of result ≡ refusal p.now vs (gate s o r) }
{
    check_present([
        (p.skids <= s).then_some(Refusal::NoSuchSkid),
        (p.tanks <= o).then_some(Refusal::NoSuchTank),
        (!Right::valid(r)).then_some(Refusal::NoSuchRight),
    ])
}

// Gate by the record: whether the skid holds the right. It is `gate_granted` over another lookup: each of the two is its two lines, and over a lookup
// that is passed in they would want its contract too.
pub fn gate_at(tested: &Tested, s: u8, o: u8, r: u8) -> Result<bool, Refusal>
    ensures { Does tested.now.monitor (gate s o r) (gate_answer_of result) tested.now.monitor }
{
    let m = &tested.monitor;
    check_gate(&m.plant, s, o, r)?;
    Ok(is_held(m, usize::from(s), o, r))
}

// The same in a list, by the rights granted: `gate_at` over another lookup, with the reason there.
pub fn gate_granted(
    tested: &Tested,
    granted: &[u8; 64],
    s: u8,
    o: u8,
    r: u8,
) -> Result<bool, Refusal>
    requires { let m = tested.now.monitor in Granted m.plant.task_rights m.running m.plant.skids granted.now }
    ensures { Does tested.now.monitor (gate s o r) (gate_answer_of result) tested.now.monitor }
{
    let m = &tested.monitor;
    check_gate(&m.plant, s, o, r)?;
    Ok(is_granted(m, granted, usize::from(s), o, r))
}

// Whether skid s holds right r on tank o, by the rights granted. Both halves are read without a branch, since the processor cannot predict the
// answer; they stand at one place, which `Monitor::tank` would work out again. It shares with `is_held` the lookup of the tank's group, the test of the
// right and the comparison of the tank; between them `is_held` reads the running task and the task's rights, in steps that it may leave. One reading of
// the record for both takes each gate of a list seven instructions more; as more than half of a mixed list are gates, a mixed request of a batch would
// take more than the baseline, its bar.
fn is_granted(m: &Monitor, granted: &[u8; 64], s: usize, o: u8, r: u8) -> bool
    requires s_bound { (s < 8) × (o < 64) }
    requires o_bound { get_or m.now.plant.tank_group o 0 < 8 }
    ensures { result ≡ granted_in m.now.plant.tank_group granted.now m.now.chosen s o r }
{
    let at = chosen_at(s, m.plant.group_of(usize::from(o)));
    let x = granted[at];
    (m.chosen[at] == o) & (x & Right::mask(r) != 0)
}

// Whether skid s holds right r on tank o, by the record. A skid that runs nothing is asked no further, since the list of rights asks every tank of
// every skid; `is_granted` asks nothing before, and so is no case of this.
pub fn is_held(m: &Monitor, s: usize, o: u8, r: u8) -> bool
    requires s_bound { (s < 8) × (o < 64) }
    requires o_bound { (get_or m.now.plant.tank_group o 0 < 8) × (task_known m.now.running s ≡ true) }
    ensures { result ≡ held_in m.now.plant.tank_group m.now.plant.task_rights m.now.running m.now.chosen s o r }
{
    m.task(s).is_some_and(|t| {
        let g = m.plant.group_of(usize::from(o));
        m.plant.rights_of(usize::from(t), g) & Right::mask(r) != 0 && m.tank(s, g) == Some(o)
    })
}
