// The batch call: plant bytes and request bytes, and the answers and the list of rights in the caller's buffer.
#![tactic(auto)]

ghost use Rattle.std.specs.Prelude.{◌≡◌, ◌+◌, ◌≤◌, length, map, IfOk};
ghost use Rattle.base.specs.Overlay.{overlay};
ghost use Rattle.calls.specs.RequestBytes.{call_in};
ghost use Rattle.outcome.specs.Batch.{size_checks, outcome, batch_calls, batch_refusal, batch_out};
ghost use Rattle.base.specs.Chain.{first};
ghost use Rattle.refusal.specs.Number.{answer_of};

use batch::serve;
use calls::Request;
use held::write_held;
use plant::Checked;
use reader::read;
use refusal::Refusal;

// The n answers, and behind them the list of the rights held.
fn write_outcome(checked: Checked, requests: &[[u8; Request::BYTES]], out: &mut [u8])
    requires { length requests.now + 577 ≤ length out.old }
    ensures { out.new ≡ overlay out.old 0 (outcome checked.plant (map call_in requests.now)) }
{
    let m = serve(checked, requests, out);
    write_held(&m, &mut out[requests.len()..]);
}

// The requests, five bytes each. 34 for bytes that end within one, then 31 for a buffer under n + 577 bytes, where n is how many requests there are.
fn check_sizes(bytes: &[u8], room: usize) -> Result<&[[u8; Request::BYTES]], Refusal>
    ensures refused { answer_of result ≡ first (size_checks (length bytes.now) room) }
    ensures calls { IfOk result (λ requests. map call_in requests.now ≡ batch_calls bytes.now) }
    ensures room_enough { IfOk result (λ requests. length requests.now + 577 ≤ room) }
{
    let (requests, rest) = bytes.as_chunks::<{ Request::BYTES }>();
    if !rest.is_empty() {
        return Err(Refusal::RequestsNotWhole);
    }
    if room < requests.len() + 577 {
        return Err(Refusal::BufferTooShort);
    }
    Ok(requests)
}

// 1 to 12: the plant. 34: request bytes that are no multiple of five. 31: a buffer under n + 577 bytes. Otherwise accepted, and the buffer holds the
// n answers, the count of rights held, and skid, tank, right of each. After a refusal it is as it was.
pub fn call_batch(plant: &[u8], requests: &[u8], out: &mut [u8]) -> Result<(), Refusal>
    ensures { (answer_of result ≡ batch_refusal plant.now requests.now (length out.old))
        × (out.new ≡ batch_out plant.now requests.now out.old) }
{
    let checked = read(plant)?;
    let requests = check_sizes(requests, out.len())?;
    write_outcome(checked, requests, out);
    Ok(())
}
