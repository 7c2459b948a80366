// The monitor of a plant with nothing set, running or chosen, and the record of zeros that a refused opening hands back.
#![tactic(auto)]

ghost use Rattle.std.specs.Prelude.{◌≡◌};
ghost use Rattle.rules.specs.Record.{fresh};
ghost use Rattle.test20.specs.Zeros.{zero_monitor};

use plant::Plant;
use rules::{Monitor, NONE};

#[tactic(auto, unfolding(rules::specs::Record::fresh))]
pub fn fresh_monitor(plant: Plant) -> Monitor
    ensures { result ≡ fresh plant }
{
    Monitor {
        plant,
        levels: [NONE; 1024],
        running: [NONE; 8],
        chosen: [NONE; 64],
    }
}

// Each count is 0, which is out of its range, so that 20 refuses it.
#[tactic(auto, using(crate::proofs::Zeros::is_zero_monitor))]
pub fn zero_monitor() -> Monitor
    ensures { result ≡ zero_monitor }
{
    Monitor::default()
}
