// The lines of a batch's outcome, written as text.
#![tactic(auto)]

ghost use Rattle.std.specs.Prelude.{◌+◌, ◌*◌, ◌/◌, ◌<◌, ◌≤◌, ◌++◌, length};
ghost use Rattle.layout.specs.Layout.{byte_at};
ghost use Rattle.printing.specs.Text.{answer_lines, right_line, right_lines, refusal_line, held_lines, outcome_lines};
ghost use Rattle.writer.specs.Writing.{Room, Writes};

use refusal::Refusal;
use text::{SPACE, put_field, put_labelled, put_pair};
use writer::Writer;

fn put_right(text: &mut Writer, skid: u8, tank: u8, right: u8)
    requires { Room (right_line skid tank right) text.old }
    ensures { Writes (right_line skid tank right) text.old text.new }
{
    put_field(text, u32::from(skid), SPACE);
    put_pair(text, u32::from(tank), right);
}

// The number and not the `Refusal`, since any number has its line (`refusal_line`).
pub fn put_refusal(text: &mut Writer, number: u8)
    requires { Room (refusal_line number) text.old }
    ensures { Writes (refusal_line number) text.old text.new }
{
    if number == u8::from(Refusal::RequestsNotWhole) {
        return put_labelled(text, b"requests ", number);
    }
    put_labelled(text, b"plant ", number);
}

// The first request is number 1. Over `(1u32..).zip(answers)` it was tried: the proof does not close unless the invariant says where the range and the
// slice stand, which is no plainer than the sum and the cast.
fn put_answers(text: &mut Writer, answers: &[u8])
    requires in_range { length answers.now < 100000 }
    requires room { Room (answer_lines answers.now (length answers.now)) text.old }
    ensures { Writes (answer_lines answers.now (length answers.now)) text.old text.new }
{
    for (i, answer) in answers.iter().enumerate() {
        put_pair(text, (i + 1) as u32, *answer);
    }
}

fn put_rights(text: &mut Writer, rights: &[u8])
    requires { Room (right_lines rights.now (length rights.now / 3)) text.old }
    ensures { Writes (right_lines rights.now (length rights.now / 3)) text.old text.new }
{
    for [skid, tank, right] in rights.as_chunks::<3>().0 {
        put_right(text, *skid, *tank, *right);
    }
}

// From the byte after the last answer on: the count of rights held, and the rights.
fn put_held(text: &mut Writer, held: &[u8])
    requires rights_within { 1 + byte_at held.now 0 * 3 ≤ length held.now }
    requires room { Room (held_lines held.now) text.old }
    ensures { Writes (held_lines held.now) text.old text.new }
{
    let count = held[0];
    put_labelled(text, b"held ", count);
    put_rights(text, &held[1..1 + usize::from(count) * 3]);
}

// What a batch answered, and, where it was accepted with 0, the two parts of its buffer. A count is one byte, so whatever the batch answered, its rights
// take at most 3 * 255 bytes of `held` and 12 * 255 of the text. A request's number has at most five digits, so an answer takes at most ten. `number` is
// no `Refusal`, since the promise is of any number that a batch may have answered.
pub fn print_outcome(text: &mut Writer, number: u8, answers: &[u8], held: &[u8])
    requires in_range { (length answers.now < 100000) × (766 ≤ length held.now) }
    requires room { text.old.at + length answers.now * 10 + 3069 ≤ length text.old.bytes.now }
    ensures { Writes (outcome_lines number (length answers.now) (answers.now ++ held.now)) text.old text.new }
{
    if number != 0 {
        return put_refusal(text, number);
    }
    put_answers(text, answers);
    put_held(text, held);
}
