// The sections of a plant file: checks 5 and 6, a file that passes 1 to 6, the part that a section fills, and the section call.
#![tactic(auto)]

ghost use Rattle.std.specs.Prelude.{◌≡◌, ◌+◌, ◌*◌, ◌≤◌, length, IfOk};
ghost use Rattle.base.specs.Below.{all_below};
ghost use Rattle.refusal.specs.Number.{answer_of};
ghost use Rattle.layout.specs.Layout.{file_limit, width, limit, count, offset, size, part};
ghost use Rattle.layout.specs.Section.{section_number};
ghost use Rattle.layout.specs.Header.{inside, all_inside, apart, all_apart, header_refusal, section_place, section_of};

use header::{HEADER_BYTES, Header, length_ok, width_of};
use layout::{Place, Section};
use refusal::Refusal;

// 5: where the sections begin and end.
#[tactic(auto, unfolding(layout::specs::Header::inside))]
fn is_inside(header: Header, section: Section) -> bool
    ensures { result ≡ inside header.entry.file.now (section_number section) }
{
    HEADER_BYTES <= header.offset(section) && header.end(section) <= header.file.len()
}

fn all_inside(header: Header) -> bool
    ensures { result ≡ all_inside header.entry.file.now }
{
    Section::ALL
        .iter()
        .all(|section| is_inside(header, *section))
}

// 6: two sections that share no byte.
#[tactic(auto, unfolding(layout::specs::Header::apart))]
fn are_apart(header: Header, a: Section, b: Section) -> bool
    ensures { result ≡ apart header.entry.file.now (section_number a) (section_number b) }
{
    header.end(a) <= header.offset(b) || header.end(b) <= header.offset(a)
}

fn apart_from_earlier(header: Header, section: Section) -> bool
    ensures { let k = section_number section in result ≡ all_below (apart header.entry.file.now k) k }
{
    Section::ALL[..usize::from(section)]
        .iter()
        .all(|earlier| are_apart(header, section, *earlier))
}

fn all_apart(header: Header) -> bool
    ensures { result ≡ all_apart header.entry.file.now }
{
    Section::ALL
        .iter()
        .all(|section| apart_from_earlier(header, *section))
}

// A file that passes checks 1 to 6.
#[derive(Clone, Copy)]
pub struct PlantFile<'a> {
    pub header: Header<'a>,
    pub ghost placed: { header_refusal header.file.now ≡ 0 },
}

// The part of a file that a section fills: its records, how many they are, and how wide each is. The count stands beside the bytes: else each reader
// would divide for it, and by `chunks_exact` it would have the records and not the cells, whose places the layout counts through all records.
#[derive(Clone, Copy)]
pub struct Part<'a> {
    pub bytes: &'a [u8],
    pub width: usize,
    pub count: usize,
    pub ghost there: { count * width ≤ length bytes.now },
    pub ghost within_limit: { count * width ≤ file_limit },
}

impl<'a> PlantFile<'a> {
    // Where a section stands in the file.
    fn place(self, section: Section) -> Place
        ensures begin { result.begin ≡ offset self.entry.header.file.now (section_number section) }
        ensures length { result.length ≡ size self.entry.header.file.now (section_number section) }
        ensures within { result.begin + result.length ≤ length self.entry.header.file.now }
    {
        let begin = self.header.offset(section);
        let end = self.header.end(section);
        Place {
            begin,
            length: end - begin,
        }
    }

    pub fn part(self, section: Section) -> Part<'a>
        ensures bytes { result.bytes.now ≡ part self.entry.header.file.now (section_number section) }
        ensures width { result.width ≡ width (section_number section) }
        ensures count { result.count ≡ count self.entry.header.file.now (section_number section) }
        ensures few { result.count ≤ limit (section_number section) }
    {
        let Place { begin, length } = self.place(section);
        Part {
            bytes: &self.header.file[begin..begin + length],
            width: width_of(section),
            count: usize::from(self.header.count(section)),
        }
    }
}

// The file, or the first of 1 to 6 that fails.
#[tactic(auto, using(base::proofs::Chain::checks), unfolding(layout::specs::Header::header_refusal))]
pub fn check_header(file: &[u8]) -> Result<PlantFile<'_>, Refusal>
    ensures number { answer_of result ≡ header_refusal file.now }
    ensures same { IfOk result (λ plant_file. plant_file.header.file.now ≡ file.now) }
{
    if !length_ok(file) {
        return Err(Refusal::WrongLength);
    }
    let header = Header { file };
    if !header.edition_ok() {
        return Err(Refusal::WrongEdition);
    }
    if !header.counts_ok() {
        return Err(Refusal::CountOutOfRange);
    }
    if !header.zeros_ok() {
        return Err(Refusal::HeaderByteNotZero);
    }
    if !all_inside(header) {
        return Err(Refusal::SectionOutside);
    }
    if !all_apart(header) {
        return Err(Refusal::SectionsShare);
    }
    Ok(PlantFile { header })
}

// Where 01's section stands in the caller's bytes, for any bytes and any kind; an empty part at their start on refusal. A kind is a number here and in
// `section`, and no `Section`: 01's section call answers each number, and C may ask for any.
#[tactic(auto, using(crate::proofs::Beyond::place_beyond))]
pub fn section_place(file: &[u8], kind: usize) -> Place
    ensures { result ≡ section_place file.now kind }
{
    match (check_header(file), Section::try_from(kind)) {
        (Ok(plant_file), Ok(section)) => plant_file.place(section),
        _ => Place::default(),
    }
}

// 01's section call: that part itself.
#[tactic(auto, using(layout::proofs::Placed::place_within))]
pub fn section(file: &[u8], kind: usize) -> &[u8]
    ensures { result.now ≡ section_of file.now kind }
{
    let Place { begin, length } = section_place(file, kind);
    &file[begin..begin + length]
}
