// Check 8: what lies above each level of a lattice record, and whether the levels are in order.
#![tactic(auto)]

ghost use Rattle.std.specs.Prelude.{◌≡◌, ◌<◌};
ghost use Rattle.base.specs.Below.{all_below};
ghost use Rattle.lattice.specs.Levels.{Layout, under, ordered};
ghost use Rattle.lattice.specs.Sets.{Strict, raised, is_within};

use lattice::Lattice;
use sets::{has, without_one};
use std::array;

// What lies strictly above each level. All sixteen sets are made: one that is not used is empty.
fn strict_sets(s: &[u16; 16]) -> [u16; 16]
    ensures { Strict s.now result }
{
    array::from_fn(|i| without_one(s[i], i))
}

// Level j, whose set is x, lies strictly above the levels that have it in `strict`: what lies above it lies further above them. By the index: in a
// `zip` with `strict` the proof does not close, since an invariant has no word for the entries of `further` there.
#[tactic(auto, using(base::proofs::Filled::filled))]
fn add_above(further: &mut [u16; 16], strict: &[u16; 16], j: usize, x: u16)
    requires { j < 16 }
    ensures { further.new ≡ raised strict.now j x further.old }
{
    for (i, set) in further.iter_mut().enumerate() {
        *set = if has(strict[i], j) { *set | x } else { *set };
    }
}

// What lies further above each level lies strictly above it.
fn all_within(further: &[u16; 16], strict: &[u16; 16]) -> bool
    ensures { result ≡ all_below (is_within further.now strict.now) 16 }
{
    further
        .iter()
        .zip(strict)
        .all(|(beyond, above)| *beyond & *above == *beyond)
}

// 8: the levels are in order. Each is under itself, and what lies above the levels strictly above it lies strictly above it: whole sets are
// united and compared, and no single pair of levels. A level that is not used is in no set. The loop is no `.all`, since it changes `further` as it goes.
pub fn in_order(lattice: &Lattice) -> bool
    requires { Layout lattice.now }
    ensures { result ≡ ordered lattice.now.n (under lattice.now) }
{
    let strict = strict_sets(&lattice.sets);
    let mut further = [0u16; 16];
    for (j, x) in lattice.sets[..usize::from(lattice.n)].iter().enumerate() {
        if !has(*x, j) {
            return false;
        }
        add_above(&mut further, &strict, j, *x);
    }
    all_within(&further, &strict)
}
