// The panel's calls, for a program in C: the batch, and where a section of a plant file stands.
#![tactic(auto)]

ghost use Rattle.std.specs.Prelude.{◌≡◌, length};
ghost use Rattle.layout.specs.Header.{section_place};
ghost use Rattle.outcome.specs.Batch.{batch_refusal, batch_out};

use batch_call::call_batch;
use layout::Place;
use parts::section_place;
use refusal::answer;

// 1 to 12: the plant. 34: request bytes that are no multiple of five. 31: a buffer under n + 577 bytes. Otherwise 0, and the buffer holds the
// n answers, the count of rights held, and skid, tank, right of each. After a refusal it is as it was.
#[unsafe(no_mangle)]
pub extern "C" fn permits_batch(plant: &[u8], requests: &[u8], out: &mut [u8]) -> u8
    ensures { (result ≡ batch_refusal plant.now requests.now (length out.old))
        × (out.new ≡ batch_out plant.now requests.now out.old) }
{
    answer(call_batch(plant, requests, out))
}

// Where 01's section stands in the caller's bytes; C may ask for any kind. A function that C calls cannot hand back a part of them, as `section` of
// crate parts does.
#[unsafe(no_mangle)]
pub extern "C" fn permits_section(file: &[u8], kind: usize) -> Place
    ensures { result ≡ section_place file.now kind }
{
    section_place(file, kind)
}
