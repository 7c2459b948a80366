// The monitor's record, and one that has passed test 20. The rules of the calls, the history of a list of calls and demand 3 stand in specs/ and
// proofs/.
// The bound of an index is a clause and no type: a type would be made of a number at each call and taken apart at each array.
#![tactic(auto)]

ghost use Rattle.std.specs.Prelude.{◌≡◌, true, ◌<◌, get_or, slice_set};
ghost use Rattle.choice.specs.Choice.{if_set};
ghost use Rattle.rules.specs.Record.{level_at, chosen_at, with_levels, Sized, intact};

use plant::Plant;

// The byte that stands for no level, task or tank: unset, or none. C has the same (PERMITS_NONE, include/permits.h).
pub const NONE: u8 = 255;

// The plant and three changing parts: a level for each skid, task and requirement at (s * 16 + t) * 8 + d, a running task for each skid,
// and a chosen tank for each skid and group at s * 8 + g. A byte is `NONE` where there is no level, task or tank.
#[repr(C)]
#[derive(Clone, Copy, Default)]
pub struct Monitor {
    pub plant: Plant,
    pub levels: [u8; 1024],
    pub running: [u8; 8],
    pub chosen: [u8; 64],
}

// The place of the level of skid s in task t for requirement d. The three go together and are no struct: they are indices of one array, each a number
// of a range or a byte of a request, so a struct would be made at each call and taken apart here, which is no plainer.
fn level_at(s: usize, t: usize, d: usize) -> usize
    requires { (s < 8) × (t < 16) × (d < 8) }
    ensures { result ≡ level_at s t d }
{
    (s * 16 + t) * 8 + d
}

// The place of the tank chosen for skid s from group g. Where a list keeps the rights granted, those of the skid on the group stand at it too.
pub fn chosen_at(s: usize, g: usize) -> usize
    requires { (s < 8) × (g < 8) }
    ensures { result ≡ chosen_at s g }
{
    s * 8 + g
}

// A byte of the record as an option.
fn if_set(x: u8) -> Option<u8>
    ensures { result ≡ if_set x }
{
    if x == NONE { None } else { Some(x) }
}

impl Monitor {
    // The level of skid s in task t for requirement d, if it is set.
    pub fn level(&self, s: usize, t: usize, d: usize) -> Option<u8>
        requires { (s < 8) × (t < 16) × (d < 8) }
        ensures { result ≡ if_set (get_or self.now.levels (level_at s t d) 0) }
    {
        if_set(self.levels[level_at(s, t, d)])
    }

    pub fn put_level(&mut self, s: usize, t: usize, d: usize, v: u8)
        requires { (s < 8) × (t < 16) × (d < 8) }
        ensures { self.new ≡ with_levels self.old (slice_set self.old.levels (level_at s t d) v) }
    {
        self.levels[level_at(s, t, d)] = v;
    }

    // The task that skid s runs, if it runs one.
    pub fn task(&self, s: usize) -> Option<u8>
        requires { s < 8 }
        ensures { result ≡ if_set (get_or self.now.running s 0) }
    {
        if_set(self.running[s])
    }

    // The tank chosen for skid s from group g, if one is.
    pub fn tank(&self, s: usize, g: usize) -> Option<u8>
        requires { (s < 8) × (g < 8) }
        ensures { result ≡ if_set (get_or self.now.chosen (chosen_at s g) 0) }
    {
        if_set(self.chosen[chosen_at(s, g)])
    }
}

// A record that has passed test 20, whoever made it. No call makes it fail (`still_passes`, calls proofs/Steps). `sized` says what the record's type
// does, since the check reads no length off an array in a field of a field.
#[derive(Clone, Copy)]
pub struct Tested {
    pub monitor: Monitor,
    pub ghost sized: { Sized monitor },
    pub ghost passes_test_20: { intact monitor.plant monitor ≡ true },
}
