// The cells of a section's records, read from the section's part.
#![tactic(auto)]

ghost use Rattle.std.specs.Prelude.{◌≡◌, ℕ, ◌+◌, ◌*◌, ◌<◌, ◌≤◌, List, length, replicate};
ghost use Rattle.layout.specs.Layout.{byte_at, word_at, width, place, limit, zeros_at};
ghost use Rattle.layout.specs.Section.{section_number};
ghost use Rattle.cells.specs.Cells.{cells_of, section_cells};

use header::word_at;
use layout::Section;
use parts::{Part, PlantFile};
use std::marker::PhantomData;

// A number that a cell holds.
pub trait Cell: Copy {
    // How many bytes it takes.
    const WIDTH: usize;

    // Tried with `Default` in its place. It says of a value that it is a default of its type and not which, so that a reader promises some default behind
    // the cells, and the plant of the records wants a step by hand for each of its nine fields to say that it is 0.
    const ZERO: Self;

    ghost WIDTH: { ℕ };

    ghost ZERO: { Self };

    // The number at a place in bytes.
    ghost number_at: { List ℕ → ℕ → Self };

    // It reads at a place in longer bytes and not from a part that begins at the cell: `read(&part.bytes[at..])` is no plainer than `read(part.bytes, at)`,
    // and the layout counts places from the section's own zero.
    fn read(bytes: &[u8], at: usize) -> Self
        requires { at + WIDTH ≤ length bytes.now }
        ensures { result ≡ number_at bytes.now at };
}

impl Cell for u8 {
    const WIDTH: usize = 1;

    const ZERO: u8 = 0;

    ghost WIDTH = { 1 };

    ghost ZERO = { 0 };

    ghost number_at = { byte_at };

    fn read(bytes: &[u8], at: usize) -> u8 {
        bytes[at]
    }
}

impl Cell for u16 {
    const WIDTH: usize = 2;

    const ZERO: u16 = 0;

    ghost WIDTH = { 2 };

    ghost ZERO = { 0 };

    ghost number_at = { word_at };

    fn read(bytes: &[u8], at: usize) -> u16 {
        word_at(bytes, at)
    }
}

// Cells that each record of a section has: `run` of them, from its byte `from` on.
#[derive(Clone, Copy)]
pub struct Field {
    pub from: usize,
    pub run: usize,
    pub ghost some: { 0 < run },
}

// A field of the records of a part, with the type of the number that a cell holds: it lies within each record.
#[derive(Drop)]
pub struct PartField<'a, T: Cell> {
    pub part: Part<'a>,
    pub field: Field,
    pub number: PhantomData<T>,
    pub ghost within: { field.from + field.run * T.WIDTH ≤ part.width },
}

impl<'a, T: Cell> PartField<'a, T> {
    // Where cell k stands. Every reader of a section takes its bounds from here.
    fn place_of(&self, k: usize) -> usize
        requires { k < self.now.part.count * self.now.field.run }
        ensures { let p = self.now.part in let f = self.now.field in
            (result ≡ place p.width f.from f.run T.WIDTH k) × (result + T.WIDTH ≤ length p.bytes.now) }
    {
        k / self.field.run * self.part.width + (self.field.from + k % self.field.run * T::WIDTH)
    }

    // The number in cell k.
    fn cell(&self, k: usize) -> T
        requires { k < self.now.part.count * self.now.field.run }
        ensures { let p = self.now.part in let f = self.now.field in result ≡ T.number_at p.bytes.now (place p.width f.from f.run T.WIDTH k) }
    {
        T::read(self.part.bytes, self.place_of(k))
    }

    // All cells, with zeros behind them. A loop over those that are there: `array::from_fn` goes over all N, and by it opening 01's plant takes 2,700
    // instructions more, half as much again.
    pub fn cells<const N: usize>(&self) -> [T; N]
        requires { self.now.part.count * self.now.field.run ≤ N }
        ensures { let p = self.now.part in let f = self.now.field in
            result ≡ cells_of T.number_at T.WIDTH p.bytes.now p.width f.from f.run p.count (replicate N T.ZERO) }
    {
        let n = self.part.count * self.field.run;
        let mut cells = [T::ZERO; N];
        for (k, cell) in cells[..n].iter_mut().enumerate() {
            *cell = self.cell(k);
        }
        cells
    }
}

// A field of the records of one section, of whatever file: a constant has no part, and `read_field` makes a `PartField` of it where the file is there.
#[derive(Drop)]
pub struct SectionField<T: Cell> {
    pub section: Section,
    pub field: Field,
    pub number: PhantomData<T>,
    pub ghost within: { field.from + field.run * T.WIDTH ≤ width (section_number section) },
}

// The cells of a section of a file, with zeros behind them.
pub fn read_field<T: Cell, const N: usize>(file: PlantFile, from: SectionField<T>) -> [T; N]
    requires { limit (section_number from.section) * from.field.run ≤ N }
    ensures { let k = section_number from.section in
        result ≡ section_cells T.number_at T.WIDTH file.entry.header.file.now k from.field.from from.field.run (replicate N T.ZERO) }
{
    let field: PartField<T> = PartField {
        part: file.part(from.section),
        field: from.field,
        number: PhantomData,
    };
    field.cells()
}

// Whether byte `from` of each record of a part is zero.
pub fn zeros_at(part: Part, from: usize) -> bool
    requires { from < part.width }
    ensures { let p = part.entry in result ≡ zeros_at p.bytes.now p.width from p.count }
{
    let field: PartField<u8> = PartField {
        part,
        field: Field { from, run: 1 },
        number: PhantomData,
    };
    (0..part.count).all(|k| field.cell(k) == 0)
}
