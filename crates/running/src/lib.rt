// The running tasks of a monitor's record and their chosen tanks: whether each skid may run its task, and each tank is one of its group.
// The bounds of s, t and g are clauses and no types: s and g come from a range and t from a byte of the record, and a type would be made of each and
// taken apart in `Plant::rights_of`, in `Monitor::tank` or at the array.
#![tactic(auto)]

ghost use Rattle.std.specs.Prelude.{◌≡◌, ◌<◌};
ghost use Rattle.base.specs.Below.{all_below};
ghost use Rattle.plant.specs.Checks.{Fits};
ghost use Rattle.test20.specs.Raw.{task_in, chosen_in, skid_runs_in};

use rules::Monitor;
use sets::has;

// What the skids of a record run, whose plant has its counts within its record. It has no `Counted` (entries) beside the monitor: that one would lend the
// plant a second time, and that both are one plant would be a further fact.
#[derive(Clone, Copy)]
pub struct Runs<'a> {
    pub monitor: &'a Monitor,
    pub ghost fits: { Fits monitor.now.plant },
}

impl<'a> Runs<'a> {
    // A running task is one of the plant's and one that the skid may run.
    fn task_ok(&self, t: u8, s: usize) -> bool
        requires { s < 8 }
        ensures { let p = self.now.monitor.now.plant in result ≡ task_in p.skid_tasks p.tasks t s }
    {
        let p = &self.monitor.plant;
        t < p.tasks && has(p.skid_tasks[s], usize::from(t))
    }

    // A chosen tank is one of its group. Where the running task has no right, any byte passes, `NONE` too.
    fn tank_ok(&self, t: usize, s: usize, g: usize) -> bool
        requires { (t < 16) × (s < 8) × (g < 8) }
        ensures { let m = self.now.monitor.now in result ≡ chosen_in m.plant.task_rights m.plant.tank_group m.chosen m.plant.tanks t s g }
    {
        let p = &self.monitor.plant;
        p.rights_of(t, g) == 0
            || self
                .monitor
                .tank(s, g)
                .is_some_and(|o| o < p.tanks && p.group_of(usize::from(o)) == g)
    }

    fn tanks_ok(&self, t: usize, s: usize) -> bool
        requires { (t < 16) × (s < 8) }
        ensures { let m = self.now.monitor.now in result ≡ all_below (chosen_in m.plant.task_rights m.plant.tank_group m.chosen m.plant.tanks t s) m.plant.groups }
    {
        (0..usize::from(self.monitor.plant.groups)).all(|g| self.tank_ok(t, s, g))
    }

    // What skid s runs, with its chosen tanks. A match: tried by `is_none_or`, where the check learns nothing of what the two methods answer if
    // its closure calls them.
    fn skid_runs_ok(&self, s: usize) -> bool
        requires { s < 8 }
        ensures { let m = self.now.monitor.now in result ≡ skid_runs_in m.plant m.running m.chosen s }
    {
        match self.monitor.task(s) {
            None => true,
            Some(t) => self.task_ok(t, s) && self.tanks_ok(usize::from(t), s),
        }
    }

    pub fn skids_ok(&self) -> bool
        ensures { let m = self.now.monitor.now in result ≡ all_below (skid_runs_in m.plant m.running m.chosen) m.plant.skids }
    {
        (0..usize::from(self.monitor.plant.skids)).all(|s| self.skid_runs_ok(s))
    }
}
