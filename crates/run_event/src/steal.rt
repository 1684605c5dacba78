// Stealing a step (document 01, "Scheduling"): whether a thief may steal, what it takes from the victim's deque, and what the
// workers' tables are then.
ghost use Rattle.std.specs.Prelude.{◌≡◌, ◌+◌, ◌≤◌, ◌<◌, length, set, Some};
ghost use Rattle.rules.specs.Tree.{kinds, most_steps};
ghost use Rattle.rules.specs.Scheduling.{most_workers};
ghost use Rattle.refusals.specs.Numbers.{number_in};
ghost use Rattle.tree_tables.specs.Terms.{Ends};
ghost use Rattle.run_spec.specs.Deques.{oldest_mark, robbed};
ghost use Rattle.run_spec.specs.Stealing.{steal_number, taken_of};
ghost use Rattle.run_spec.specs.Terms.{Small};

use policy::WORKERS;
use refusals::Refusal;
use run_spec::Stolen;
use tree::{MOST_STEPS, Ordinal, Phase, Step};
use tree_tables::wide;

// Judges a steal in a run of so many workers, but for an empty deque: refusals 8 and 11, or 2 for a tree that is too long.
pub fn judge_steal(
    tree: &[u8],
    held: &[u16; WORKERS],
    workers: u16,
    thief: u8,
    victim: u8,
) -> Result<(), Refusal>
    ensures { number_in result ≡ steal_number workers (kinds tree.now) held.now thief victim }
{
    if policy::no_worker(workers, thief) || policy::no_worker(workers, victim) {
        return Err(Refusal::Worker);
    }
    let n = tree::steps(tree);
    if MOST_STEPS < n {
        return Err(Refusal::TreeLength);
    }
    let t = thief as usize;
    if wide(held[t]) < n {
        return Err(Refusal::Thief);
    }
    Ok(())
}

// The oldest step of the victim's deque leaves it, and is given with its pusher and its ordinal.
pub fn take_step(
    tree: &[u8],
    ends: &[u16],
    place: &mut [u8; MOST_STEPS],
    policy: u8,
    victim: u8,
    low: Step,
    base: Ordinal,
) -> Option<Stolen>
    requires { (length (kinds tree.now) ≤ most_steps) × Ends (kinds tree.now) ends.now (length ends.now) }
    ensures gives { let ks = kinds tree.now in
        result ≡ taken_of policy ks base.0 low.0 (oldest_mark place.old victim low.0 (length ks)) }
    ensures leaves { place.new ≡ robbed place.old victim low.0 (length (kinds tree.now)) }
    ensures small { Small result }
{
    let n = tree::steps(tree);
    match run_deques::take(place, victim, low, n) {
        Some(pusher) => {
            let step = policy::pushed_by(tree, ends, policy, pusher);
            let ordinal = super::ordinal::ordinal_from(tree, policy, base, low, pusher);
            Some(Stolen {
                pusher,
                step,
                ordinal,
            })
        }
        None => None,
    }
}

// What a steal stores for its two workers: the thief holds the step and has begun the phase, and the victim's scans go on
// behind the step's pusher.
pub fn settle(
    held: &mut [u16; WORKERS],
    phase: &mut [u16; WORKERS],
    low: &mut [u16; WORKERS],
    base: &mut [u16; WORKERS],
    thief: u8,
    victim: u8,
    stolen: Stolen,
    begun: Phase,
)
    requires { (thief < most_workers) × (victim < most_workers) × Small (Some stolen) × (begun.0 < 65536) }
    ensures held { held.new ≡ set held.old thief stolen.step.0 }
    ensures phase { phase.new ≡ set phase.old thief begun.0 }
    ensures low { let passed = set low.old victim (stolen.pusher.0 + 1) in
        low.new ≡ set passed thief stolen.step.0 }
    ensures base { base.new ≡ set (set base.old victim 0) thief stolen.ordinal.0 }
{
    let t = thief as usize;
    let v = victim as usize;
    let step = stolen.step.0 as u16;
    held[t] = step;
    phase[t] = begun.0 as u16;
    low[v] = (stolen.pusher.0 + 1) as u16;
    low[t] = step;
    base[v] = 0;
    base[t] = stolen.ordinal.0 as u16;
}
