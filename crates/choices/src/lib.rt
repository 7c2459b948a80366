// The table of the choices for each group and level.
// The bound of an index is a clause and no type: a type would be made of a number at each call and taken apart at each array.
#![tactic(auto)]

ghost use Rattle.std.specs.Prelude.{◌<◌};
ghost use Rattle.choice.specs.Table.{EightRows, Linked, ChoicesIn, Put};

use choice::Choices;
use nearest::Places;
use plant::Plant;
use sets::Members;

// Tank o goes to the entries of its group g for the levels of the set `near`.
fn put_choices(made: &mut Choices, g: usize, near: u16, o: u8)
    requires { (g < 8) × EightRows made.old }
    ensures { Put g near o made.old made.new }
{
    for v in Members::of(near) {
        made[g][v] = Some(o);
    }
}

// The choice from each group under each level, where a tank of the group is at or under the level. The tanks go from the highest number
// down, so that the lowest is written last. The loop counts them and does not go over their arrays: a tank's number is what is stored, and what `near` asks
// for. It is not inlined: a list calls it once, and its loops would take registers from each request.
#[inline(never)]
pub fn make_choices(p: &Plant) -> Choices
    requires { Linked p.now }
    ensures { ChoicesIn p.now result }
{
    let places = Places::of(p);
    let mut made = [[None; 16]; 8];
    for o in (0..p.tanks).rev() {
        let i = usize::from(o);
        put_choices(&mut made, p.group_of(i), places.near(i), o);
    }
    made
}
