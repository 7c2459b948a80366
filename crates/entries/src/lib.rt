// Opening's check 10 on a record: the links and the tanks, and with crate tasks all of it.
// The bound of an index is a clause and no type: a range makes o, and a type would be made of it and taken apart at each array.
#![tactic(auto)]

ghost use Rattle.std.specs.Prelude.{◌≡◌, ◌<◌, ◌&&◌, true, length};
ghost use Rattle.base.specs.Below.{all_below};
ghost use Rattle.plant.specs.Checks.{Fits, LinksIn, entry_below, tank_fits, numbers_ok};

use plant::Plant;
use tasks::{skids_fit, tasks_fit};

// Each entry is below a bound.
fn all_below(entries: &[u8], bound: u8) -> bool
    ensures { result ≡ all_below (entry_below entries.now bound) (length entries.now) }
{
    entries.iter().all(|entry| *entry < bound)
}

// A plant whose counts are within its record.
#[derive(Clone, Copy)]
pub struct Counted<'a> {
    pub plant: &'a Plant,
    pub ghost fits: { Fits plant.now },
}

impl<'a> Counted<'a> {
    // Each requirement's lattice and each group's requirement is there.
    #[tactic(auto, using(plant::proofs::Links::links_in, plant::proofs::Links::front_below))]
    fn links_fit(&self) -> bool
        ensures tested { let p = self.now.plant.now in result
            ≡ all_below (entry_below p.requirement_lattice p.lattices) p.requirements
            && all_below (entry_below p.group_requirement p.requirements) p.groups }
        ensures links_in { result ≡ true → LinksIn self.now.plant.now }
    {
        let p = self.plant;
        all_below(
            &p.requirement_lattice[..usize::from(p.requirements)],
            p.lattices,
        ) && all_below(
            &p.group_requirement[..usize::from(p.groups)],
            p.requirements,
        )
    }

    // 10, of all entries.
    #[tactic(auto, unfolding(plant::specs::Checks::numbers_ok))]
    pub fn numbers_ok(&self) -> bool
        ensures { result ≡ numbers_ok self.now.plant.now }
    {
        if !self.links_fit() {
            return false;
        }
        let linked = Linked { plant: self.plant };
        linked.tanks_fit() && tasks_fit(self.plant) && skids_fit(self.plant)
    }
}

// A plant that has its links too: the lattice of each requirement and the requirement of each group are there.
#[derive(Clone, Copy)]
struct Linked<'a> {
    plant: &'a Plant,
    ghost fits: { Fits plant.now },
    ghost links_in: { LinksIn plant.now },
}

impl<'a> Linked<'a> {
    // A tank is judged in the lattice of its group's requirement.
    fn tank_fits(&self, o: usize) -> bool
        requires { o < 64 }
        ensures { result ≡ tank_fits self.now.plant.now o }
    {
        let p = self.plant;
        let group = p.group_of(o);
        group < usize::from(p.groups)
            && p.level_of(o) < usize::from(p.levels_of(p.requirement_of(group)))
    }

    fn tanks_fit(&self) -> bool
        ensures { result ≡ all_below (tank_fits self.now.plant.now) self.now.plant.now.tanks }
    {
        (0..usize::from(self.plant.tanks)).all(|o| self.tank_fits(o))
    }
}
