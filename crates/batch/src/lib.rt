// A list of requests served from the fresh monitor, which each request changes in place.
#![tactic(auto)]

ghost use Rattle.std.specs.Prelude.{◌≡◌, ◌≤◌, length, map};
ghost use Rattle.base.specs.Overlay.{overlay};
ghost use Rattle.rules.specs.Record.{fresh};
ghost use Rattle.rules.specs.Run.{runs, ends};
ghost use Rattle.calls.specs.RequestBytes.{call_in};

use calls::Request;
use plant::Checked;
use rules::Monitor;
use turns::Batch;

// The answer to each request, from the fresh monitor, and the record after the last. The answers are written by their numbers: over
// `out.iter_mut().zip(..)` it was tried, and the proof does not close, since of a buffer lent so the check knows the length alone after a turn.
pub fn serve(checked: Checked, requests: &[[u8; Request::BYTES]], out: &mut [u8]) -> Monitor
    requires { length requests.now ≤ length out.old }
    ensures record_after { result ≡ ends (fresh checked.plant) (map call_in requests.now) }
    ensures answers { out.new ≡ overlay out.old 0 (runs (fresh checked.plant) (map call_in requests.now)) }
{
    let mut batch = Batch::new(checked);
    for (i, request) in requests.iter().enumerate() {
        out[i] = batch.turn(Request::from(*request));
    }
    batch.tested.monitor
}
