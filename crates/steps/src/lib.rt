// The work of set and stop on a record that has passed test 20, and a skid's row of choices or of rights granted.
// The bound of an index is a clause and no type: a type would be made of a number at each call and taken apart at each array.
#![tactic(auto)]

ghost use Rattle.std.specs.Prelude.{◌≡◌, ◌*◌, ◌<◌};
ghost use Rattle.base.specs.Chain.{first};
ghost use Rattle.refusal.specs.Number.{answer_of};
ghost use Rattle.rules.specs.Rules.{set, stop};
ghost use Rattle.rules.specs.Record.{fill_from};
ghost use Rattle.calls.specs.Lent.{Does};
ghost use Rattle.calls.specs.Work.{set_items, rights_in, get_row};

use calls::check_present;
use plant::Plant;
use refusal::Refusal;
use rules::{NONE, Tested};

// Whether the skid, the task and the requirement of a set are there.
fn check_set(p: &Plant, s: u8, t: u8, d: u8) -> Result<(), Refusal>
    ensures { answer_of result ≡ first (set_items p.now s t d) }
{
    check_present([
        (p.skids <= s).then_some(Refusal::NoSuchSkid),
        (p.tasks <= t).then_some(Refusal::NoSuchTask),
        (p.requirements <= d).then_some(Refusal::NoSuchRequirement),
    ])
}

// Set: 21 to 24, or the level is stored.
pub fn set_at(tested: &mut Tested, s: u8, t: u8, d: u8, v: u8) -> Result<(), Refusal>
    ensures { Does tested.old.monitor (set s t d v) (answer_of result) tested.new.monitor }
{
    let m = &mut tested.monitor;
    check_set(&m.plant, s, t, d)?;
    if m.plant.levels_of(usize::from(d)) <= v {
        return Err(Refusal::NoSuchLevel);
    }
    m.put_level(usize::from(s), usize::from(t), usize::from(d), v);
    Ok(())
}

// A skid's row of eight, its choices or the rights granted to it: written whole, so that nothing stale is left. With `as_chunks_mut`, as
// `Plant::rights_row` reads a row, the proof does not close: its contract does not say what the array is afterwards.
pub fn put_row(rows: &mut [u8; 64], s: usize, row: &[u8; 8])
    requires { s < 8 }
    ensures { rows.new ≡ fill_from rows.old (s * 8) (get_row row.now) 8 }
{
    rows[s * 8..s * 8 + 8].copy_from_slice(row);
}

// Gives a skid the rights of the task that it runs.
pub fn grant_row(granted: &mut [u8; 64], p: &Plant, s: usize, t: usize)
    requires { (s < 8) × (t < 16) }
    ensures { granted.new ≡ fill_from granted.old (s * 8) (rights_in p.now.task_rights t) 8 }
{
    put_row(granted, s, p.rights_row(t));
}

// Stop: 21, or the skid runs nothing and has no tank.
#[tactic(auto, using(calls::proofs::Ready::plant_valid))]
pub fn stop_at(tested: &mut Tested, s: u8) -> Result<(), Refusal>
    ensures { Does tested.old.monitor (stop s) (answer_of result) tested.new.monitor }
{
    let m = &mut tested.monitor;
    if m.plant.skids <= s {
        return Err(Refusal::NoSuchSkid);
    }
    m.running[usize::from(s)] = NONE;
    put_row(&mut m.chosen, usize::from(s), &[NONE; 8]);
    Ok(())
}
