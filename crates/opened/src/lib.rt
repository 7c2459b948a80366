// Opening a plant file, by value: the fresh monitor, or a record of zeros.
#![tactic(auto)]

ghost use Rattle.std.specs.Prelude.{◌≡◌};
ghost use Rattle.requests.specs.Calls.{opened_of};

use fresh::{fresh_monitor, zero_monitor};
use reader::read;
use requests::Answered;

// Opening: the number that refuses the file, or 0 and the fresh monitor.
pub fn open(file: &[u8]) -> Answered
    ensures { result ≡ opened_of file.now }
{
    match read(file) {
        Ok(checked) => Answered {
            answer: 0,
            monitor: fresh_monitor(checked.plant),
        },
        Err(refusal) => Answered::refused(refusal, zero_monitor()),
    }
}
