// The choices of a start by itself: for each group that its task needs the tank under the skid's level, and no others.
// The bound of an index is a clause and no type: a type would be made of a number at each call and taken apart at each array.
#![tactic(auto)]

ghost use Rattle.std.specs.Prelude.{◌≡◌, ◌<◌};
ghost use Rattle.choice.specs.Choice.{if_set};
ghost use Rattle.choice.specs.Table.{GroupLinked, group_near, group_choice};
ghost use Rattle.calls.specs.Work.{NeedOf};
ghost use Rattle.calls.specs.Start.{SearchReads, Looked};

use choice::Choices;
use chosen::Start;
use nearest::Places;
use rules::Monitor;
use sets::{Members, has};

// A group, by its number among the places of its plant. Its requirement and that requirement's lattice are there.
#[derive(Drop)]
struct Group<'a> {
    places: &'a Places<'a>,
    number: usize,
    ghost linked: { GroupLinked places.now.plant.now number },
}

impl<'a> Group<'a> {
    // Whether tank o is nearest in the group for level v.
    fn is_nearest(&self, v: usize, o: usize) -> bool
        requires { (v < 16) × (o < self.now.places.now.plant.now.tanks) }
        ensures { result ≡ group_near self.now.places.now.plant.now self.now.number v o }
    {
        self.places.plant.group_of(o) == self.number && has(self.places.near(o), v)
    }

    // The choice from the group under level v: the lowest tank that is nearest.
    fn choice(&self, v: usize) -> Option<u8>
        requires { v < 16 }
        ensures { result ≡ if_set (group_choice self.now.places.now.plant.now self.now.number v) }
    {
        (0..self.places.plant.tanks).find(|&o| self.is_nearest(v, usize::from(o)))
    }
}

// The choices for the groups that the task needs, each in the entry of its group and of the level that the skid has; the others are none. A group whose
// level is unset has none.
pub fn choices_for(m: &Monitor, start: &Start) -> Choices
    requires reads { SearchReads m.now.plant m.now.levels start.now.skid start.now.task }
    requires need { NeedOf m.now.plant start.now.task start.now.need }
    ensures { Looked m.now.plant m.now.levels start.now.skid start.now.task result }
{
    let places = Places::of(&m.plant);
    let mut made = [[None; 16]; 8];
    for g in Members::of(start.need) {
        if let Some(v) = start.level(m, g) {
            let group = Group {
                places: &places,
                number: g,
            };
            made[g][v] = group.choice(v);
        }
    }
    made
}
