// The header of a plant file: its counts, offsets and length, and checks 1 to 4.
#![tactic(auto)]

ghost use Rattle.std.specs.Prelude.{◌≡◌, ◌+◌, ◌*◌, ◌<◌, ◌≤◌, length};
ghost use Rattle.layout.specs.Layout.{word_at, header_bytes, length_at, width, count, offset, end};
ghost use Rattle.layout.specs.Section.{section_number};
ghost use Rattle.layout.specs.Header.{length_ok, edition_ok, count_ok, counts_ok, zeros_ok};

use layout::Section;

pub const HEADER_BYTES: usize = 24;

pub const FILE_LIMIT: usize = 4096;

const EDITION: u8 = 1;

// Where the header has the edition, the counts, the offsets and the file's length.
const EDITION_AT: usize = 0;

const COUNTS_AT: usize = 1;

const OFFSETS_AT: usize = 8;

const LENGTH_AT: usize = 20;

// The bytes that are always zero: one behind the counts, two behind the length.
const BEHIND_COUNTS: usize = 7;

const BEHIND_LENGTH: usize = 22;

// Bytes of a record, by section: the form that 01 names for the widths. Edition 2 adds a second row.
const WIDTHS: [usize; 6] = [34, 2, 2, 2, 10, 2];

// The most records, by section, in the same form.
const LIMITS: [usize; 6] = [8, 8, 8, 64, 16, 8];

pub fn width_of(section: Section) -> usize
    ensures { (result ≡ width (section_number section)) × (result ≤ 34) }
{
    WIDTHS[usize::from(section)]
}

// The two-byte number at a place in bytes, low byte first. It is not of a part that begins there: `word_at(&file[LENGTH_AT..])` is no plainer than
// `word_at(file, LENGTH_AT)`, and the layout's definitions have the place too.
pub fn word_at(bytes: &[u8], at: usize) -> u16
    requires { at + 1 < length bytes.now }
    ensures { result ≡ word_at bytes.now at }
{
    u16::from_le_bytes([bytes[at], bytes[at + 1]])
}

// 1: the length.
#[tactic(auto, unfolding(layout::specs::Header::length_ok))]
pub fn length_ok(file: &[u8]) -> bool
    ensures { result ≡ length_ok file.now }
{
    (HEADER_BYTES..=FILE_LIMIT).contains(&file.len()) && Header { file }.length_said() == file.len()
}

// 3: the counts.
#[tactic(auto, unfolding(layout::specs::Header::count_ok))]
pub fn count_ok(section: Section, count: usize) -> bool
    ensures { result ≡ count_ok (section_number section) count }
{
    (1..=LIMITS[usize::from(section)]).contains(&count)
}

// A file with a whole header, and maybe more bytes behind the file.
#[derive(Clone, Copy)]
pub struct Header<'a> {
    pub file: &'a [u8],
    pub ghost whole: { header_bytes ≤ length file.now },
}

impl<'a> Header<'a> {
    // How long the file says that it is.
    pub fn length_said(self) -> usize
        ensures { (result ≡ word_at self.entry.file.now length_at) × (result < 65536) }
    {
        usize::from(word_at(self.file, LENGTH_AT))
    }

    // How many records a section has.
    pub fn count(self, section: Section) -> u8
        ensures { result ≡ count self.entry.file.now (section_number section) }
    {
        self.file[COUNTS_AT + usize::from(section)]
    }

    // Where a section begins.
    pub fn offset(self, section: Section) -> usize
        ensures { (result ≡ offset self.entry.file.now (section_number section)) × (result < 65536) }
    {
        usize::from(word_at(self.file, OFFSETS_AT + usize::from(section) * 2))
    }

    // Where it ends.
    pub fn end(self, section: Section) -> usize
        ensures { result ≡ end self.entry.file.now (section_number section) }
    {
        self.offset(section) + usize::from(self.count(section)) * width_of(section)
    }

    // 2: the edition.
    #[tactic(auto, unfolding(layout::specs::Header::edition_ok))]
    pub fn edition_ok(self) -> bool
        ensures { result ≡ edition_ok self.entry.file.now }
    {
        self.file[EDITION_AT] == EDITION
    }

    // 3: the counts.
    pub fn counts_ok(self) -> bool
        ensures { result ≡ counts_ok self.entry.file.now }
    {
        Section::ALL.iter().all(|section| count_ok(*section, usize::from(self.count(*section))))
    }

    // 4: the bytes that are always zero.
    #[tactic(auto, unfolding(layout::specs::Header::zeros_ok))]
    pub fn zeros_ok(self) -> bool
        ensures { result ≡ zeros_ok self.entry.file.now }
    {
        self.file[BEHIND_COUNTS] == 0 && word_at(self.file, BEHIND_LENGTH) == 0
    }
}
