// The row of tanks that a start chooses: the groups that its task needs, and the tank for each.
// The bound of an index is a clause and no type: a type would be made of a number at each call and taken apart at each array. That a plant has at most
// eight groups is a clause too, at `need_of` and `need_once`: a `Tested` has it, and would ask for all of test 20.
#![tactic(auto)]

ghost use Rattle.std.specs.Prelude.{◌≡◌, ◌<◌, ◌≤◌};
ghost use Rattle.base.specs.Bits.{bit};
ghost use Rattle.plant.specs.Plant.{requirement_of};
ghost use Rattle.choice.specs.Choice.{if_set};
ghost use Rattle.choice.specs.Table.{made_at};
ghost use Rattle.calls.specs.Work.{wish_in, NeedOf, Needed, Reached, RowDone};

use choice::Choices;
use plant::Plant;
use refusal::Refusal;
use rules::{Monitor, NONE};
use sets::{Members, with_one};

// The groups on which task t names a right, as a set. A loop: by `filter` and `fold` its proof wants laws of the range, of the filter and of the closure,
// where the loop's is one line. It is not inlined: a list calls it once for each task, and its loop would take registers from each request.
#[inline(never)]
pub fn need_of(p: &Plant, t: usize) -> u16
    requires { (t < 16) × (p.now.groups ≤ 8) }
    ensures { NeedOf p.now t result }
{
    let mut need: u16 = 0;
    for g in 0..usize::from(p.groups) {
        if p.rights_of(t, g) != 0 {
            need = with_one(need, g);
        }
    }
    need
}

// The same, made at the first start of the task in a list that passes 26 and looked up at the others.
pub fn need_once(p: &Plant, needs: &mut [Option<u16>; 16], t: usize) -> u16
    requires t_bound { (t < 16) × (p.now.groups ≤ 8) }
    requires needed { Needed p.now needs.old }
    ensures { NeedOf p.now t result × Needed p.now needs.new }
{
    *needs[t].get_or_insert_with(
        ||
            requires { (t < 16) × (p.now.groups ≤ 8) }
            ensures { NeedOf p.entry.now t result }
        { need_of(p, t) },
    )
}

// A start that has passed 26: its skid, its task, and the groups on which the task names a right, as a set.
#[derive(Clone, Copy)]
pub struct Start {
    pub skid: u8,
    pub task: u8,
    pub need: u16,
    pub ghost in_range: { (skid < 8) × (task < 16) },
}

impl Start {
    // The level that the skid has in the task for the requirement of group g, if it is set.
    pub fn level(&self, m: &Monitor, g: usize) -> Option<usize>
        requires { (g < 8) × (requirement_of m.now.plant g < 8) }
        ensures { result ≡ if_set (wish_in m.now.plant.group_requirement m.now.levels self.now.skid self.now.task g) }
    {
        let d = m.plant.requirement_of(g);
        m.level(usize::from(self.skid), usize::from(self.task), d)
            .map(usize::from)
    }
}

// The skid's row of choices for the groups that the task needs; the others have `NONE`, as the record does, which C reads. A level that is not set in
// any group comes before a tank that is missing in any, so that the first alone ends the loop. It goes from group to group of the set, since which
// groups a task needs cannot be predicted.
pub fn choose_row(m: &Monitor, made: &Choices, start: &Start) -> Result<[u8; 8], Refusal>
    requires { Reached m.now.plant.group_requirement m.now.levels start.now.skid start.now.task start.now.need }
    ensures { RowDone (made_at made.now) m.now.plant.group_requirement m.now.levels start.now.skid start.now.task (bit start.now.need) 8 result }
{
    let mut row = [NONE; 8];
    let mut lacking = false;
    for g in Members::of(start.need) {
        let v = start.level(m, g).ok_or(Refusal::LevelNotSet)?;
        match made[g][v] {
            Some(o) => row[g] = o,
            None => lacking = true,
        }
    }
    if lacking {
        return Err(Refusal::NoTankAtOrUnder);
    }
    Ok(row)
}
