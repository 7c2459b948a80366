// Opening's checks 3 and 7 to 12 of a plant record, in their order.
#![tactic(auto)]

ghost use Rattle.std.specs.Prelude.{◌≡◌};
ghost use Rattle.plant.specs.Checks.{counts_in, lower, lattices_refusal, plant_refusal};
ghost use Rattle.refusal.specs.Number.{answer_of};

use entries::Counted;
use header::count_ok;
use items::check_items;
use layout::Section;
use levels::check_lattice;
use plant::Plant;
use refusal::Refusal;

// 3: the counts. `Header::counts_ok` is the same of a file. One function of both would take the count as a closure and promise its test of any closure
// that tells counts, and each of the two would still state its own: three contracts in place of two.
fn counts_in(p: &Plant) -> bool
    ensures { result ≡ counts_in p.now }
{
    Section::ALL.iter().all(|section| count_ok(*section, usize::from(p.count(*section))))
}

// The refusal with the lower number, which is written first, decides. By the numbers, of which the rule speaks. Tried with a derived order and `x.min(y)`:
// the variants stand in the order of their numbers, but that they do is a law of twenty-six cases, where this is proved with no answer.
fn lower(a: Result<(), Refusal>, b: Result<(), Refusal>) -> Result<(), Refusal>
    ensures { answer_of result ≡ lower (answer_of a) (answer_of b) }
{
    match (a, b) {
        (Err(x), Err(y)) if u8::from(y) < u8::from(x) => Err(y),
        (Err(x), _) => Err(x),
        (Ok(()), outcome) => outcome,
    }
}

// 7 to 9, of all lattices: 8 of one comes before 9 of another. A loop: by `.fold(..)` it was proved too, but that proof wants laws of the range and of the
// closure's calls beside those of the lattices, and is longer than the loop's.
#[tactic(auto, using(plant::proofs::Sequence::first_none, plant::proofs::Sequence::first_more, plant::proofs::Sequence::first_all))]
fn check_lattices(counted: &Counted) -> Result<(), Refusal>
    ensures { answer_of result ≡ lattices_refusal counted.now.plant.now }
{
    let p = counted.plant;
    let mut outcome = Ok(());
    for l in 0..usize::from(p.lattices) {
        outcome = lower(outcome, check_lattice(&p.lattice(l)));
    }
    outcome
}

// Checks 3 and 7 to 12 of a plant record. The two tests say whether the bytes of the file that are always zero are: those of the lattice records,
// and those of the others. A record has no such bytes.
#[tactic(auto, using(plant::proofs::Sequence::fits_behind, plant::proofs::Sequence::refused_lattice, refusal::proofs::NotZero::handed_on, refusal::proofs::NotZero::not_0), unfolding(plant::specs::Checks::plant_refusal, plant::specs::Checks::lattices_refusal, plant::specs::Checks::items_refusal))]
pub fn check_plant(p: &Plant, lattice_zeros: bool, other_zeros: bool) -> Result<(), Refusal>
    ensures { answer_of result ≡ plant_refusal lattice_zeros other_zeros p.now }
{
    if !counts_in(p) {
        return Err(Refusal::CountOutOfRange);
    }
    if !lattice_zeros {
        return Err(Refusal::LatticeMalformed);
    }
    let counted = Counted { plant: p };
    check_lattices(&counted)?;
    if !other_zeros {
        return Err(Refusal::EntryOutOfRange);
    }
    check_items(&counted)
}
