// The test of a lattice record: check 7, and with crates above and joins the number that refuses it.
#![tactic(auto)]

ghost use Rattle.std.specs.Prelude.{◌≡◌, ◌<◌, ◌≤◌};
ghost use Rattle.base.specs.Below.{all_below};
ghost use Rattle.lattice.specs.Levels.{set_clear, layout, lattice_refusal};
ghost use Rattle.refusal.specs.Number.{answer_of};

use above::in_order;
use joins::is_complete;
use lattice::Lattice;
use refusal::Refusal;
use sets::none_from;

// The set of a level has no bit from n on, and a set that is not used has none at all.
fn sets_clear(lattice: &Lattice) -> bool
    requires { lattice.now.n ≤ 16 }
    ensures { result ≡ all_below (set_clear lattice.now) 16 }
{
    let (used, unused) = lattice.sets.split_at(usize::from(lattice.n));
    used.iter().all(|x| none_from(*x, lattice.n)) && unused.iter().all(|x| *x == 0)
}

// 7: the record keeps its layout.
#[tactic(auto, unfolding(lattice::specs::Levels::layout))]
fn laid_out(lattice: &Lattice) -> bool
    ensures { result ≡ layout lattice.now }
{
    (1..=16).contains(&lattice.n) && sets_clear(lattice)
}

// Checks 7 to 9 of a lattice record.
#[tactic(auto, using(base::proofs::Chain::checks), unfolding(lattice::specs::Levels::lattice_refusal))]
pub fn check_lattice(lattice: &Lattice) -> Result<(), Refusal>
    ensures { answer_of result ≡ lattice_refusal lattice.now }
{
    if !laid_out(lattice) {
        return Err(Refusal::LatticeMalformed);
    }
    if !in_order(lattice) {
        return Err(Refusal::NotAnOrder);
    }
    if !is_complete(lattice) {
        return Err(Refusal::NotALattice);
    }
    Ok(())
}
