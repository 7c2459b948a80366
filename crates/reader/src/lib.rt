// The reader of plant files: any bytes give opening's number, or the plant.
#![tactic(auto)]

ghost use Rattle.std.specs.Prelude.{◌≡◌, IfOk};
ghost use Rattle.opening.specs.Reading.{lattice_zeros, other_zeros, reading_of};
ghost use Rattle.refusal.specs.Number.{answer_of};
ghost use Rattle.reader.specs.Said.{said_by};

use cells::zeros_at;
use checks::check_plant;
use layout::Section;
use parts::{PlantFile, check_header};
use plant::Checked;
use records::plant_from;
use refusal::Refusal;

// The byte of a lattice, a requirement, a group or a task that is always zero.
const ZERO_BYTE: usize = 1;

// The zero bytes that check 7 tests, of the lattices' records.
#[tactic(auto, unfolding(opening::specs::Reading::lattice_zeros))]
fn lattice_zeros(file: PlantFile) -> bool
    ensures { result ≡ lattice_zeros file.entry.header.file.now }
{
    zeros_at(file.part(Section::Lattices), ZERO_BYTE)
}

// Those that check 10 tests, of the other records.
#[tactic(auto, unfolding(opening::specs::Reading::other_zeros))]
fn other_zeros(file: PlantFile) -> bool
    ensures { result ≡ other_zeros file.entry.header.file.now }
{
    zeros_at(file.part(Section::Requirements), ZERO_BYTE)
        && zeros_at(file.part(Section::Groups), ZERO_BYTE)
        && zeros_at(file.part(Section::Tasks), ZERO_BYTE)
}

// Any bytes: opening's number, or the plant.
pub fn read(file: &[u8]) -> Result<Checked, Refusal>
    ensures refused { answer_of result ≡ (reading_of file.now).answer }
    ensures plant { IfOk result (λ checked. checked.plant ≡ (reading_of file.now).plant) }
    ensures reading { said_by result ≡ reading_of file.now }
{
    let plant_file = check_header(file)?;
    let plant = plant_from(plant_file);
    check_plant(&plant, lattice_zeros(plant_file), other_zeros(plant_file))?;
    Ok(Checked { plant })
}
