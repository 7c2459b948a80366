// The stored levels of a monitor's record: whether each is unset or one of its lattice.
// `levels_by_requirement` and `levels_ok` ask the bound of the counts that they read and no more: a type of a plant that fits would ask for all six.
// The bounds of s, t and d are clauses and no types: a type would be made of each number of a range here and taken apart in `Monitor::level`.
#![tactic(auto)]

ghost use Rattle.std.specs.Prelude.{◌≡◌, ℕ, ◌+◌, ◌*◌, ◌<◌, ◌≤◌};
ghost use Rattle.base.specs.Below.{all_below};
ghost use Rattle.plant.specs.Plant.{lattice_of};
ghost use Rattle.test20.specs.Raw.{most, row_level_in, task_levels_in, skid_levels_in};

use plant::Plant;
use rules::Monitor;
use std::array;

// How many levels each requirement has, so that its lattice is found once and not for each skid and task. Past the count, where nothing reads it, the
// number is 255.
pub fn levels_by_requirement(p: &Plant) -> [u8; 8]
    requires count_in { p.now.requirements ≤ 8 }
    requires lattices_in { (d : ℕ) → d < p.now.requirements → lattice_of p.now d < 8 }
    ensures { result ≡ most p.now }
{
    let n = usize::from(p.requirements);
    array::from_fn(|d| if d < n { p.levels_of(d) } else { 255 })
}

// The stored levels of a record whose counts are within it, and how many levels each requirement has.
#[derive(Clone, Copy)]
struct Stored<'a> {
    monitor: &'a Monitor,
    levels: &'a [u8; 8],
    ghost counts_in: { let p = monitor.now.plant in (p.requirements ≤ 8) × ((p.tasks ≤ 16) × (p.skids ≤ 8)) },
}

impl<'a> Stored<'a> {
    // A stored level is unset or one of its lattice.
    fn level_ok(&self, s: usize, t: usize, d: usize) -> bool
        requires { (s < 8) × (t < 16) × (d < 8) }
        ensures { result ≡ row_level_in self.now.monitor.now.levels self.now.levels.now (s * 16 + t) d }
    {
        self.monitor
            .level(s, t, d)
            .is_none_or(|v| v < self.levels[d])
    }

    // The levels of one skid and task stand in one row.
    fn row_ok(&self, s: usize, t: usize) -> bool
        requires { (s < 8) × (t < 16) }
        ensures { let m = self.now.monitor.now in result ≡ task_levels_in m.levels self.now.levels.now m.plant.requirements s t }
    {
        (0..usize::from(self.monitor.plant.requirements)).all(|d| self.level_ok(s, t, d))
    }

    fn skid_levels_ok(&self, s: usize) -> bool
        requires { s < 8 }
        ensures { let m = self.now.monitor.now in result ≡ skid_levels_in m.levels self.now.levels.now m.plant.requirements m.plant.tasks s }
    {
        (0..usize::from(self.monitor.plant.tasks)).all(|t| self.row_ok(s, t))
    }
}

// `levels` has how many levels each requirement has.
pub fn levels_ok(m: &Monitor, levels: &[u8; 8]) -> bool
    requires { (m.now.plant.requirements ≤ 8) × ((m.now.plant.tasks ≤ 16) × (m.now.plant.skids ≤ 8)) }
    ensures { result ≡ all_below (skid_levels_in m.now.levels levels.now m.now.plant.requirements m.now.plant.tasks) m.now.plant.skids }
{
    let stored = Stored { monitor: m, levels };
    (0..usize::from(m.plant.skids)).all(|s| stored.skid_levels_ok(s))
}
