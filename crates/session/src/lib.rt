// The program's input as a plant and requests, and the text of what the batch makes of them.
#![tactic(auto)]

ghost use Rattle.std.specs.Prelude.{◌≡◌, ◌+◌, ◌≤◌, length, MatchOption};
ghost use Rattle.printing.specs.Text.{refusal_line};
ghost use Rattle.printing.specs.Printed.{batch_lines, printed, PrintsRead};
ghost use Rattle.writer.specs.Writing.{Writes};

use batch_call::call_batch;
use calls::Request;
use header::{HEADER_BYTES, Header};
use lines::{print_outcome, put_refusal};
use refusal::{Refusal, answer};
use writer::Writer;

// The most bytes that are taken.
const LONGEST: usize = 65536;

// What the program reads into: one byte more than is taken, so that longer input shows.
pub const INPUT: usize = LONGEST + 1;

// The most requests that so many bytes have.
const REQUESTS: usize = LONGEST / Request::BYTES;

// Room for their answers, a count, and 255 rights of three bytes.
const RESULTS: usize = REQUESTS + 766;

// Room for a line of ten bytes for each, the held line, and 255 lines of twelve.
pub const TEXT: usize = REQUESTS * 10 + 3069;

fn print_batch(plant: &[u8], requests: &[u8], text: &mut Writer)
    requires in_range { length requests.now ≤ 65536 }
    requires room { text.old.at + 134139 ≤ length text.old.bytes.now }
    ensures { Writes (batch_lines plant.now requests.now) text.old text.new }
{
    let mut results = [0u8; RESULTS];
    let number = answer(call_batch(plant, requests, &mut results));
    let (answers, held) = results.split_at(requests.len() / Request::BYTES);
    print_outcome(text, number, answers, held);
}

// The plant, as long as its header says, and the requests behind it; none where the header or the plant is not all there.
fn plant_and_requests(input: &[u8]) -> Option<(&[u8], &[u8])>
    requires { length input.now ≤ 65536 }
    ensures { MatchOption result (printed input.now ≡ refusal_line 1)
        (λ parts. (printed input.now ≡ batch_lines parts.0.now parts.1.now) × (length parts.1.now ≤ 65536)) }
{
    if input.len() < HEADER_BYTES {
        return None;
    }
    input.split_at_checked(Header { file: input }.length_said())
}

// A plant that is not all there is refused as a file of another length than it says.
fn print_session(input: &[u8], text: &mut Writer)
    requires room { text.old.at + 134139 ≤ length text.old.bytes.now }
    ensures { Writes (printed input.now) text.old text.new }
{
    if input.len() > LONGEST {
        return text.word(b"long\n");
    }
    match plant_and_requests(input) {
        Some((plant, requests)) => print_batch(plant, requests, text),
        None => put_refusal(text, u8::from(Refusal::WrongLength)),
    }
}

// What the program read: the first n bytes of the array, or all of it where n is more. The array and n, and not the part that was read: that input which
// is too long shows is promised of the array (`PrintsRead`).
pub fn print_read(input: &[u8; INPUT], n: usize, text: &mut [u8; TEXT]) -> usize
    ensures { PrintsRead input.now n text.old text.new result }
{
    let mut writer = Writer::new(text);
    print_session(&input[..n.min(INPUT)], &mut writer);
    writer.end()
}
