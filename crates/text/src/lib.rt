// Numbers and lines of numbers, written as text.
// By functions of their own and not by `Display` and `write!`: tried for a line of two numbers, of a `Writer` that is a `fmt::Write`, and the proof does
// not close. `write!` answers a Result, and its contract says what is written where that is Ok and never that it is, whatever room there is; these
// functions cannot fail.
// That a number has at most five digits is a clause: with a type for it, each count would be made one first.
#![tactic(auto, using(writer::proofs::Written::room_rest))]

ghost use Rattle.std.specs.Prelude.{[], ◌∷◌, ◌++◌, ◌<◌};
ghost use Rattle.printing.specs.Decimal.{decimal, decimal_place, digit};
ghost use Rattle.printing.specs.Text.{line};
ghost use Rattle.writer.specs.Writing.{Room, Writes};

use writer::Writer;

pub const SPACE: u8 = b' ';

const NEWLINE: u8 = b'\n';

// The digit is below 10, so it is made a byte by `as`: `try_from` would answer with an error that there cannot be.
fn put_digit(text: &mut Writer, d: u32)
    requires in_range { d < 10 }
    requires room { Room (digit d ∷ []) text.old }
    ensures { Writes (digit d ∷ []) text.old text.new }
{
    text.byte(b'0' + d as u8);
}

#[tactic(auto, using(writer::proofs::Written::writes_nothing))]
fn put_place(text: &mut Writer, m: u32)
    requires { Room (decimal_place m) text.old }
    ensures { Writes (decimal_place m) text.old text.new }
{
    if m != 0 {
        put_digit(text, m % 10);
    }
}

// A place that n does not reach has no digit. Five places by fixed divisions of 32 bits: with the toolchain's itoa the line of an answer takes 118
// instructions, where this takes 76, and permits with 65,000 bytes some 1.5 times the baseline's, where its bar is 1.2 and this takes 1.14. 01's session
// has ten answers, and takes 1.21 either way.
#[tactic(auto, using(writer::proofs::Written::room_rest, printing::proofs::Number::places_length, printing::proofs::Decimal::some_digit))]
fn put_number(text: &mut Writer, n: u32)
    requires in_range { n < 100000 }
    requires room { Room (decimal n) text.old }
    ensures { Writes (decimal n) text.old text.new }
{
    if n < 10 {
        return put_digit(text, n);
    }
    put_place(text, n / 10000);
    put_place(text, n / 1000);
    put_place(text, n / 100);
    put_place(text, n / 10);
    put_place(text, n);
}

// A number and the byte behind it.
pub fn put_field(text: &mut Writer, n: u32, end: u8)
    requires in_range { n < 100000 }
    requires room { Room (decimal n ++ (end ∷ [])) text.old }
    ensures { Writes (decimal n ++ (end ∷ [])) text.old text.new }
{
    put_number(text, n);
    text.byte(end);
}

// The line of a label, which ends with its space, and a number.
pub fn put_labelled(text: &mut Writer, label: &[u8], n: u8)
    requires { Room (label.now ++ line (decimal n ∷ [])) text.old }
    ensures { Writes (label.now ++ line (decimal n ∷ [])) text.old text.new }
{
    text.word(label);
    put_field(text, u32::from(n), NEWLINE);
}

// The line of two numbers.
pub fn put_pair(text: &mut Writer, a: u32, b: u8)
    requires in_range { a < 100000 }
    requires room { Room (line (decimal a ∷ decimal b ∷ [])) text.old }
    ensures { Writes (line (decimal a ∷ decimal b ∷ [])) text.old text.new }
{
    put_field(text, a, SPACE);
    put_field(text, u32::from(b), NEWLINE);
}
