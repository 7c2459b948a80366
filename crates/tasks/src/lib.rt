// Check 10 on the tasks and skids of a plant: no requirement, right or task past its count.
// Each function asks the bound of the counts that it reads and no more, so the bound is a clause: a type of a plant that fits would ask for all six.
// The bound of an index is a clause too: a range makes t and g, and a type would be made of each and taken apart at the array.
#![tactic(auto)]

ghost use Rattle.std.specs.Prelude.{◌≡◌, ◌<◌, ◌≤◌};
ghost use Rattle.base.specs.Below.{all_below};
ghost use Rattle.plant.specs.Checks.{entry_clear, task_rights_fit_in, task_fits};

use plant::{Plant, Right};
use sets::none_from;

// What task t names on group g are rights, and none at all on a group past the count.
fn rights_fit(p: &Plant, t: usize, g: usize) -> bool
    requires { (t < 16) × (g < 8) }
    ensures { result ≡ task_rights_fit_in p.now.task_rights p.now.groups t g }
{
    let rights = p.rights_of(t, g);
    none_from(u16::from(rights), Right::COUNT) && (g < usize::from(p.groups) || rights == 0)
}

fn task_fits(p: &Plant, t: usize) -> bool
    requires { (p.now.requirements ≤ 16) × (t < 16) }
    ensures { result ≡ task_fits p.now t }
{
    none_from(u16::from(p.task_requirements[t]), p.requirements)
        && (0..8).all(|g| rights_fit(p, t, g))
}

pub fn tasks_fit(p: &Plant) -> bool
    requires { (p.now.requirements ≤ 16) × (p.now.tasks ≤ 16) }
    ensures { result ≡ all_below (task_fits p.now) p.now.tasks }
{
    (0..usize::from(p.tasks)).all(|t| task_fits(p, t))
}

pub fn skids_fit(p: &Plant) -> bool
    requires { (p.now.tasks ≤ 16) × (p.now.skids ≤ 8) }
    ensures { result ≡ all_below (entry_clear p.now.skid_tasks p.now.tasks) p.now.skids }
{
    p.skid_tasks[..usize::from(p.skids)]
        .iter()
        .all(|tasks| none_from(*tasks, p.tasks))
}
