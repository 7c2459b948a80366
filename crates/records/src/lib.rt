// The plant that the records of a plant file make: each section's fields, read into the arrays of the plant's record.
#![tactic(auto)]

ghost use Rattle.std.specs.Prelude.{◌≡◌};
ghost use Rattle.opening.specs.Reading.{plant_of};

use cells::{Field, SectionField, read_field};
use layout::Section;
use parts::PlantFile;
use plant::Plant;
use std::marker::PhantomData;

// A field of a section's records: from which byte of each on, and how many cells. A macro, since a constant cannot call a function.
macro_rules! field {
    ($section:ident, from $from:expr, run $run:expr) => {
        SectionField {
            section: Section::$section,
            field: Field { from: $from, run: $run },
            number: PhantomData,
        }
    };
}

// The fields of each section's records. Each name begins with the record.
const LATTICE_SIZE: SectionField<u8> = field!(Lattices, from 0, run 1);

const LATTICE_SETS: SectionField<u16> = field!(Lattices, from 2, run 16);

const REQUIREMENT_LATTICE: SectionField<u8> = field!(Requirements, from 0, run 1);

const GROUP_REQUIREMENT: SectionField<u8> = field!(Groups, from 0, run 1);

const TANK_GROUP: SectionField<u8> = field!(Tanks, from 0, run 1);

const TANK_LEVEL: SectionField<u8> = field!(Tanks, from 1, run 1);

const TASK_REQUIREMENTS: SectionField<u8> = field!(Tasks, from 0, run 1);

const TASK_RIGHTS: SectionField<u8> = field!(Tasks, from 2, run 8);

const SKID_TASKS: SectionField<u16> = field!(Skids, from 0, run 1);

// The plant that the records make.
pub fn plant_from(file: PlantFile) -> Plant
    ensures { result ≡ plant_of file.entry.header.file.now }
{
    Plant {
        lattices: file.header.count(Section::Lattices),
        requirements: file.header.count(Section::Requirements),
        groups: file.header.count(Section::Groups),
        tanks: file.header.count(Section::Tanks),
        tasks: file.header.count(Section::Tasks),
        skids: file.header.count(Section::Skids),
        lattice_sizes: read_field(file, LATTICE_SIZE),
        lattice_sets: read_field(file, LATTICE_SETS),
        requirement_lattice: read_field(file, REQUIREMENT_LATTICE),
        group_requirement: read_field(file, GROUP_REQUIREMENT),
        tank_group: read_field(file, TANK_GROUP),
        tank_level: read_field(file, TANK_LEVEL),
        task_requirements: read_field(file, TASK_REQUIREMENTS),
        task_rights: read_field(file, TASK_RIGHTS),
        skid_tasks: read_field(file, SKID_TASKS),
    }
}
