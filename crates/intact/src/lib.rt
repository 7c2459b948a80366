// Test 20: whether a monitor's record can be relied on. A record can come from anywhere, so nothing is asked of it beforehand.
#![tactic(auto)]

ghost use Rattle.std.specs.Prelude.{◌≡◌, true, cond, IfOk};
ghost use Rattle.plant.specs.Checks.{plant_refusal};
ghost use Rattle.refusal.specs.Number.{answer_of};
ghost use Rattle.rules.specs.Record.{intact};
ghost use Rattle.test20.specs.Raw.{parts_in};

use checks::check_plant;
use refusal::Refusal;
use rules::{Monitor, Tested};
use running::Runs;
use stored::{levels_by_requirement, levels_ok};

// A record whose plant has passed its checks: its counts and links say where the changing parts are read, and lie within the record.
#[derive(Clone, Copy)]
struct Placed<'a> {
    monitor: &'a Monitor,
    ghost passes_checks: { plant_refusal true true monitor.now.plant ≡ 0 },
}

impl<'a> Placed<'a> {
    // The changing parts: within the counts, on every skid.
    #[tactic(auto, using(test20::proofs::Views::fits, test20::proofs::Views::lattices_in))]
    fn parts_ok(&self) -> bool
        ensures { let m = self.now.monitor.now in result ≡ parts_in m.plant m.levels m.running m.chosen }
    {
        let m = self.monitor;
        levels_ok(m, &levels_by_requirement(&m.plant)) && Runs { monitor: m }.skids_ok()
    }
}

// 20. The plant comes first. A record has none of the file's bytes that are always zero, so both tests of them are `true`.
#[tactic(auto, using(refusal::proofs::NotZero::refused_not_0, refusal::proofs::NotZero::accepted_0, test20::proofs::Views::refused, test20::proofs::Views::intact_same))]
pub fn is_intact(m: &Monitor) -> bool
    ensures { result ≡ intact m.now.plant m.now }
{
    check_plant(&m.plant, true, true).is_ok() && Placed { monitor: m }.parts_ok()
}

// The record as one that has passed test 20, for the calls behind it, or 20.
pub fn check_intact(monitor: Monitor) -> Result<Tested, Refusal>
    ensures number { answer_of result ≡ cond (intact monitor.plant monitor) 0 20 }
    ensures same { IfOk result (λ tested. tested.monitor ≡ monitor) }
{
    if !is_intact(&monitor) {
        return Err(Refusal::MonitorNotIntact);
    }
    Ok(Tested { monitor })
}
