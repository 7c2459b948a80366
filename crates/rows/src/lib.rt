// The levels of a lattice in order, and a row of their table of joins: the join of one level with each level, found by the sets of the levels.
// The bound of an index or a count is a clause and no type: a type would be made of a number at each call and taken apart at each array.
#![tactic(auto)]

ghost use Rattle.std.specs.Prelude.{◌≡◌, get_or, ℕ, ◌^◌, true, ◌<◌, ◌≤◌};
ghost use Rattle.base.specs.Below.{all_below};
ghost use Rattle.base.specs.Bits.{bit};
ghost use Rattle.lattice.specs.Sets.{under_in, OrderedSets, Turned, added, turned_sets, numbers_to, upper_row, marked};
ghost use Rattle.lattice.specs.Table.{join_row};

use lattice::Lattice;
use sets::{Members, byte_where, has};
use std::array;

// Levels in order: bit j of above[i] where level j is at or above level i, and bit j of under[i] where it is at or under it. Arrays of sixteen with the
// count of the levels beside them, and no slices: there is no heap for what is made here, and over all sixteen the loops need no branch for the count.
// `numbers` are what `upper_row` puts where level i is not above, made once for all rows: a row that makes them itself takes 6,800 instructions more in
// opening a maximum plant.
#[derive(Clone, Copy)]
pub struct Levels {
    pub count: usize,
    pub above: [u16; 16],
    pub under: [u16; 16],
    pub numbers: [u8; 16],
    pub ghost ordered: { OrderedSets count above },
    pub ghost turned: { Turned count above under },
    pub ghost numbered: { numbers ≡ numbers_to count },
}

// Level i, whose set is x, goes into the turned sets of the levels of x.
#[tactic(auto, using(base::proofs::Filled::filled))]
fn add_level(t: &mut [u16; 16], x: u16, i: usize)
    requires { (i < 16) × ((j : ℕ) → j < 16 → get_or t.old j 0 < 2 ^ i) }
    ensures { t.new ≡ added t.old x i }
{
    for (j, set) in t.iter_mut().enumerate() {
        *set += u16::from(has(x, j)) << i;
    }
}

// The sets of the turned order, in which a join is a meet of the given one.
fn turned_sets(s: &[u16; 16]) -> [u16; 16]
    ensures { result ≡ turned_sets s.now }
{
    let mut t = [0u16; 16];
    for (i, x) in s.iter().enumerate() {
        add_level(&mut t, *x, i);
    }
    t
}

// The numbers of the levels as bytes, and 255, which stands for none, from n on: `table` (joins) says why an entry is no `Option`. A level is below 16,
// so its number is made a byte by `as`, here and in a row: `try_from` would answer with an error that there cannot be.
pub fn numbers_to(n: usize) -> [u8; 16]
    requires { n ≤ 16 }
    ensures { result ≡ numbers_to n }
{
    array::from_fn(|j| if j < n { j as u8 } else { 255 })
}

// Level k is the join of the level whose set is x and of each level whose set shares with x what set k has. By the index: in a `zip` with
// the sets the proof does not close, since an invariant has no word for the entries of the row there.
#[tactic(auto, using(base::proofs::Filled::filled))]
fn mark(row: &mut [u8; 16], s: &[u16; 16], x: u16, k: usize)
    requires { k < 16 }
    ensures { row.new ≡ marked s.now x k row.old }
{
    let own = s[k];
    let number = k as u8;
    for (j, entry) in row.iter_mut().enumerate() {
        *entry = if own == x & s[j] { number } else { *entry };
    }
}

impl Levels {
    pub fn of(lattice: &Lattice) -> Levels
        requires { OrderedSets lattice.now.n lattice.now.sets }
        ensures count { result.count ≡ lattice.now.n }
        ensures above { result.above ≡ lattice.now.sets }
        ensures under { result.under ≡ turned_sets lattice.now.sets }
        ensures under_ordered { OrderedSets result.count result.under }
    {
        let count = usize::from(lattice.n);
        Levels {
            count,
            above: lattice.sets,
            under: turned_sets(&lattice.sets),
            numbers: numbers_to(count),
        }
    }

    // The turned order, in which a join is a meet of this one. That its sets are in order is a clause and no fact of `Levels`: `join_row` asks it of `above`
    // alone, and may ask no more.
    pub fn turned(&self) -> Levels
        requires { OrderedSets self.now.count self.now.under }
        ensures count { result.count ≡ self.now.count }
        ensures above { result.above ≡ self.now.under }
        ensures under { result.under ≡ self.now.above }
    {
        Levels {
            count: self.count,
            above: self.under,
            under: self.above,
            numbers: self.numbers,
        }
    }

    // The set x has as many levels as there are, and no number from there on: so each level is in it.
    fn is_all(&self, x: u16) -> bool
        ensures { result ≡ true → all_below (bit x) self.now.count ≡ true }
    {
        u32::from(x) + 1 == 1u32 << self.count
    }

    // Level i where it is above level j, and else the number of j. All sixteen entries are made: a level that is not used is under none. With an `if` in
    // place of `byte_where` the loop has a branch for each entry, and opening a maximum plant takes 15,800 instructions more.
    fn upper_row(&self, i: usize) -> [u8; 16]
        requires { i < 16 }
        ensures { result ≡ upper_row self.now.above self.now.numbers i }
    {
        array::from_fn(|j| byte_where(self.above[j], i, i as u8, self.numbers[j]))
    }

    // A level that is a join with level i is above it, so the others are left out. Entries past the levels stay 255: a set that is not used
    // shares nothing.
    fn searched_row(&self, i: usize) -> [u8; 16]
        requires { i < self.now.count }
        ensures { result ≡ join_row self.now.count (under_in self.now.above) i }
    {
        let x = self.above[i];
        let mut found = [255u8; 16];
        for k in Members::of(x) {
            mark(&mut found, &self.above, x, k);
        }
        found
    }

    // Where each level is under level i or above it, which its two sets show at once, the join is the upper one and the row wants no search.
    pub fn join_row(&self, i: usize) -> [u8; 16]
        requires { i < self.now.count }
        ensures { result ≡ join_row self.now.count (under_in self.now.above) i }
    {
        if self.is_all(self.above[i] | self.under[i]) {
            self.upper_row(i)
        } else {
            self.searched_row(i)
        }
    }
}
