// The levels for which a tank is nearest, as sets.
// The bound of an index is a clause and no type: a type would be made of a number at each call and taken apart at each array.
#![tactic(auto)]

ghost use Rattle.std.specs.Prelude.{◌≡◌, not, ◌&&◌, ℕ, ◌<◌, get_or};
ghost use Rattle.base.specs.Below.{any_below};
ghost use Rattle.base.specs.Bits.{bit};
ghost use Rattle.plant.specs.Plant.{group_of};
ghost use Rattle.choice.specs.Search.{under_in_lattice};
ghost use Rattle.choice.specs.Table.{TanksThere, GroupLinked, PlacesOf, group_near, reaches_in, nearer_in};

use plant::Plant;
use sets::{Members, with_one, without_one, without_set};

// A plant, and the levels at which each of its groups has a tank, as sets.
#[derive(Clone, Copy)]
pub struct Places<'a> {
    pub plant: &'a Plant,
    pub at_group: [u16; 8],
    pub ghost tanks_there: { TanksThere plant.now },
    pub ghost known: { (g : ℕ) → g < 8 → PlacesOf plant.now g (get_or at_group g 0) },
}

// The levels at which each group has a tank.
fn places_of(p: &Plant) -> [u16; 8]
    requires { TanksThere p.now }
    ensures { (g : ℕ) → g < 8 → PlacesOf p.now g (get_or result g 0) }
{
    let mut places = [0u16; 8];
    let tanks = usize::from(p.tanks);
    for (level, group) in p.tank_level[..tanks].iter().zip(&p.tank_group[..tanks]) {
        let g = usize::from(*group);
        places[g] = with_one(places[g], usize::from(*level));
    }
    places
}

// What lies at or above a level of the set `these` in lattice l.
fn above_in(p: &Plant, l: usize, these: u16) -> u16
    requires { l < 8 }
    ensures { (v : ℕ) → bit result v ≡ any_below (reaches_in p.now.lattice_sets l these v) 16 }
{
    let mut all: u16 = 0;
    for y in Members::of(these) {
        all |= p.above(l, y);
    }
    all
}

// The levels for which a tank at level x is nearest, in a group with tanks at `places`: those at or above x, and at or above no
// other level of the group that is above x.
pub fn nearest_for(p: &Plant, l: usize, places: u16, x: usize) -> u16
    requires { (l < 8) × (x < 16) }
    ensures { (v : ℕ) → bit result v ≡ under_in_lattice p.now.lattice_sets l x v && not (any_below (nearer_in p.now.lattice_sets l places x v) 16) }
{
    let own = p.above(l, x);
    let nearer = without_one(places & own, x);
    let taken = above_in(p, l, nearer);
    without_set(own, taken)
}

impl<'a> Places<'a> {
    pub fn of(plant: &'a Plant) -> Places<'a>
        requires { TanksThere plant.now }
        ensures { result.plant.now ≡ plant.now }
    {
        Places {
            plant,
            at_group: places_of(plant),
        }
    }

    // The levels for which tank o is nearest in its group.
    pub fn near(&self, o: usize) -> u16
        requires tank { o < self.now.plant.now.tanks }
        requires links { GroupLinked self.now.plant.now (group_of self.now.plant.now o) }
        ensures { (v : ℕ) → bit result v ≡ group_near self.now.plant.now (group_of self.now.plant.now o) v o }
    {
        let p = self.plant;
        let g = p.group_of(o);
        let l = p.lattice_of(p.requirement_of(g));
        nearest_for(p, l, self.at_group[g], p.level_of(o))
    }
}
