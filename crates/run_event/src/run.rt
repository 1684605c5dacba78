// Running a step (document 01, "Scheduling"): whether a worker may run the step that it holds, what it holds next, and the
// places then.
ghost use Rattle.std.specs.Prelude.{◌≡◌, ◌≤◌, ◌<◌, length};
ghost use Rattle.rules.specs.Tree.{kinds, most_steps};
ghost use Rattle.rules.specs.Scheduling.{most_workers};
ghost use Rattle.refusals.specs.Numbers.{number_in};
ghost use Rattle.tree_tables.specs.Terms.{Ends, Openers};
ghost use Rattle.run_spec.specs.Terms.{Climbs, WaitsAtLow};
ghost use Rattle.run_spec.specs.Running.{run_number, held_next, place_next};

use super::waiting::{awaits, may_wait};
use policy::WORKERS;
use refusals::Refusal;
use run_spec::NO_STEP;
use tree::{END, MOST_STEPS, Step};
use tree_tables::wide;

// Judges a worker's run in a run of so many workers: refusals 8, 9 and 10, or 2 for a tree that is too long.
pub fn judge_run(
    tree: &[u8],
    openers: &[u16],
    place: &[u8; MOST_STEPS],
    held: &[u16; WORKERS],
    low: &[u16; WORKERS],
    workers: u16,
    worker: u8,
) -> Result<(), Refusal>
    requires openers { Openers (kinds tree.now) openers.now (length openers.now) }
    requires waits_at_low { worker < most_workers → WaitsAtLow (kinds tree.now) openers.now place.now held.now low.now worker }
    ensures { number_in result ≡ run_number workers (kinds tree.now) place.now held.now worker }
{
    if policy::no_worker(workers, worker) {
        return Err(Refusal::Worker);
    }
    let n = tree::steps(tree);
    if MOST_STEPS < n {
        return Err(Refusal::TreeLength);
    }
    let w = worker as usize;
    let i = wide(held[w]);
    if n <= i {
        return Err(Refusal::Idle);
    }
    if !may_wait(openers, Step(i), Step(wide(low[w]))) {
        return Ok(());
    }
    if awaits(tree, openers, place, Step(i)).is_some() {
        return Err(Refusal::Waits);
    }
    Ok(())
}

// A worker has run a step: the places change, and the step that it holds next, or NO_STEP, is given.
pub fn advance(
    tree: &[u8],
    ends: &[u16],
    openers: &[u16],
    place: &mut [u8; MOST_STEPS],
    policy: u8,
    worker: u8,
    low: Step,
    step: Step,
) -> u16
    requires { let ks = kinds tree.now in
        (step.0 < length ks) × (length ks ≤ most_steps) × Ends ks ends.now (length ends.now)
        × (step.0 < length openers.now → Climbs openers.now place.old worker low.0 step.0) }
    ensures gives { result ≡ held_next policy (kinds tree.now) place.old worker low.0 step.0 }
    ensures leaves { place.new ≡ place_next (kinds tree.now) place.old worker low.0 step.0 }
{
    if tree::kind(tree, step) != END {
        let held = policy::held_after(tree, ends, policy, step);
        run_deques::push(place, worker, step);
        return held.0 as u16;
    }
    match run_deques::pop(openers, place, worker, low, step) {
        Some(q) => {
            let held = policy::pushed_by(tree, ends, policy, q);
            held.0 as u16
        }
        None => NO_STEP,
    }
}
