// Sets of numbers under sixteen, a bit each. A set is a bare `u16`, as a plant file has it. The arrays of the plant's record could hold a type of its own in
// the layout that C reads; but the definitions of the rules speak of lists of numbers, and each list of sets would become one of records,
// which is no plainer.
// The bound of an index is a clause and no type: a type would be made of a number at each call and taken apart at each array.
#![tactic(auto)]

ghost use Rattle.std.specs.Prelude.{◌≡◌, cond, not, ◌&&◌, ◌||◌, eqb, ℕ, ◌<◌, ◌≤◌, MatchOption};
ghost use Rattle.std.specs.Iterator.{at_most};
ghost use Rattle.base.specs.Bits.{bit, none_from};
ghost use Rattle.sets.specs.Members.{TakenFrom};

// Level i is in the set x.
pub fn has(x: u16, i: usize) -> bool
    requires { i < 16 }
    ensures { result ≡ bit x i }
{
    (x >> i) % 2 == 1
}

// The set x has no number from n on. A shift by 16 wants the wider number.
#[tactic(auto, unfolding(base::specs::Bits::none_from))]
pub fn none_from(x: u16, n: u8) -> bool
    requires { n ≤ 16 }
    ensures { result ≡ none_from n x }
{
    u32::from(x) >> n == 0
}

// The set x with the number i in it.
#[tactic(auto, using(crate::proofs::Single::with_one_lem))]
pub fn with_one(x: u16, i: usize) -> u16
    requires { i < 16 }
    ensures { (k : ℕ) → bit result k ≡ bit x k || eqb i k }
{
    x | (1u16 << i)
}

// The set x without the number i.
#[tactic(auto, using(crate::proofs::Single::masked_one_lem))]
pub fn without_one(x: u16, i: usize) -> u16
    requires { i < 16 }
    ensures { (k : ℕ) → bit result k ≡ bit x k && not (eqb i k) }
{
    x & !(1u16 << i)
}

// The set x without the numbers of y.
#[tactic(auto, using(crate::proofs::Single::without_set_lem))]
pub fn without_set(x: u16, y: u16) -> u16
    ensures { (k : ℕ) → bit result k ≡ bit x k && not (bit y k) }
{
    x & !y
}

// The byte `yes` where level i is in the set x, and else `no`.
pub fn byte_where(x: u16, i: usize, yes: u8, no: u8) -> u8
    requires { i < 16 }
    ensures { result ≡ cond (bit x i) yes no }
{
    if has(x, i) { yes } else { no }
}

// The numbers that are in a set, the lowest first.
#[derive(Drop)]
pub struct Members {
    pub rest: u16,
}

impl Members {
    pub fn of(set: u16) -> Members
        ensures { result.rest ≡ set }
    {
        Members { rest: set }
    }
}

impl Iterator for Members {
    type Item = usize;

    ghost next_gives = { λ s r t. MatchOption r (s.rest ≡ 0) (λ i. TakenFrom s.rest i t.rest) };

    ghost remaining = { λ s. at_most s.rest };

    fn next(&mut self) -> Option<usize> {
        if self.rest == 0 {
            return None;
        }
        // The standard library has no `From<u32>` for `usize`, and the number is below 16.
        let i = self.rest.trailing_zeros() as usize;
        self.rest = without_one(self.rest, i);
        Some(i)
    }
}
