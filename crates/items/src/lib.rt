// Opening's checks 10 to 12 on the tanks, tasks and skids of a plant, in their order.
// The bounds of t and g are clauses and no types: a range makes each, and a type would be made of it at each turn and taken apart at each array.
#![tactic(auto)]

ghost use Rattle.std.specs.Prelude.{◌≡◌, ℕ, ◌<◌};
ghost use Rattle.base.specs.Below.{all_below};
ghost use Rattle.plant.specs.Plant.{group_of, requirement_of};
ghost use Rattle.plant.specs.Checks.{Fits, levels_distinct, requirement_named, requirements_named, items_refusal};
ghost use Rattle.refusal.specs.Number.{answer_of};

use entries::Counted;
use plant::Plant;
use refusal::Refusal;
use sets::has;

// A plant that has passed check 10: each group's requirement can be looked up in a set of requirements, and each tank's group has its places.
#[derive(Clone, Copy)]
struct Numbered<'a> {
    plant: &'a Plant,
    ghost fits: { Fits plant.now },
    ghost group_in: { (o : ℕ) → o < plant.now.tanks → group_of plant.now o < 8 },
    ghost requirement_in: { (g : ℕ) → g < plant.now.groups → requirement_of plant.now g < 8 },
}

impl<'a> Numbered<'a> {
    // 11: no two tanks of one group at one level: each tank in turn finds its place, one for each level and group, free, and takes it. A loop, since each
    // turn changes `taken`: in the closure of an `.all` its test would be that of a `mem::replace`, which is no plainer.
    #[tactic(auto, using(base::proofs::Scan::all_none, base::proofs::Scan::all_ends, plant::proofs::Places::taken_none), unfolding(plant::specs::Checks::levels_distinct))]
    fn levels_distinct(&self) -> bool
        ensures { result ≡ levels_distinct self.now.plant.now }
    {
        let p = self.plant;
        let tanks = usize::from(p.tanks);
        let mut taken = [[false; 8]; 256];
        for (level, group) in p.tank_level[..tanks].iter().zip(&p.tank_group[..tanks]) {
            let level = usize::from(*level);
            let group = usize::from(*group);
            if taken[level][group] {
                return false;
            }
            taken[level][group] = true;
        }
        true
    }

    // 12: where task t names a right on group g, it names the requirement of g.
    fn requirement_named(&self, t: usize, g: usize) -> bool
        requires { (t < 16) × (g < self.now.plant.now.groups) }
        ensures { result ≡ requirement_named self.now.plant.now t g }
    {
        let p = self.plant;
        p.rights_of(t, g) == 0 || has(u16::from(p.task_requirements[t]), p.requirement_of(g))
    }

    fn task_named(&self, t: usize) -> bool
        requires { t < 16 }
        ensures { result ≡ all_below (requirement_named self.now.plant.now t) self.now.plant.now.groups }
    {
        (0..usize::from(self.plant.groups)).all(|g| self.requirement_named(t, g))
    }

    fn requirements_named(&self) -> bool
        ensures { result ≡ requirements_named self.now.plant.now }
    {
        (0..usize::from(self.plant.tasks)).all(|t| self.task_named(t))
    }
}

// 10, 11 or 12.
#[tactic(auto, using(plant::proofs::Sequence::groups_fit_places, plant::proofs::Sequence::requirements_fit_set), unfolding(plant::specs::Checks::items_refusal))]
pub fn check_items(counted: &Counted) -> Result<(), Refusal>
    ensures { answer_of result ≡ items_refusal counted.now.plant.now }
{
    if !counted.numbers_ok() {
        return Err(Refusal::EntryOutOfRange);
    }
    let numbered = Numbered {
        plant: counted.plant,
    };
    if !numbered.levels_distinct() {
        return Err(Refusal::TanksAtOneLevel);
    }
    if !numbered.requirements_named() {
        return Err(Refusal::RequirementNotNamed);
    }
    Ok(())
}
