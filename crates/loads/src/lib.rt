// The loads of the workers, in recording and in replay (document 01, "Trace, log, run list"): at a steal the weight from the stolen
// step to the end of its task, with all that is spawned there, leaves the victim's load for the thief's; and the totals that a call
// answers at its end, which are each worker's load, the heaviest worker, and each class's load (document 02, #103).
#![tactic(auto)]

ghost use Rattle.std.specs.Prelude.{◌≡◌, ◌+◌, ◌≤◌, ◌<◌, length, get_or};
ghost use Rattle.rules.specs.Scheduling.{most_workers};
ghost use Rattle.rules.specs.Traces.{heaviest as heaviest_of};
ghost use Rattle.loads.specs.Terms.{load_moved, weight_between, Movable, totals_of, no_totals};

use policy::WORKERS;
use tree::{CLASSES, Step};
use tree_tables::wide;

// Some weight leaves the victim's load for the thief's.
#[tactic(auto, unfolding(crate::specs::Terms::load_moved))]
fn move_load(loads: &mut [u64; WORKERS], thief: usize, victim: usize, weight: u64)
    requires workers { (thief < most_workers) × (victim < most_workers) × (thief ≡ victim → ⊥) }
    requires fits { (weight ≤ get_or loads.old victim 0) × (get_or loads.old thief 0 + weight < 18446744073709551616) }
    ensures { loads.new ≡ load_moved loads.old thief victim weight }
{
    loads[victim] -= weight;
    loads[thief] += weight;
}

// A step is stolen: all from it to the end of its task, by the tree's tables, goes to the thief's load.
#[tactic(auto, unfolding(crate::specs::Terms::weight_between))]
pub fn move_part(
    ends: &[u16],
    sums: &[u64],
    loads: &mut [u64; WORKERS],
    thief: usize,
    victim: usize,
    step: Step,
)
    requires workers { (thief < most_workers) × (victim < most_workers) × (thief ≡ victim → ⊥) }
    requires movable { Movable ends.now sums.now loads.old thief victim step.0 }
    ensures { let weight = weight_between ends.now sums.now step.0 in
        loads.new ≡ load_moved loads.old thief victim weight }
{
    let first = step.0;
    let end = wide(ends[first]);
    let weight = sums[end] - sums[first];
    move_load(loads, thief, victim, weight);
}

// The heaviest worker, the lowest numbered among equals.
fn heaviest(loads: &[u64; WORKERS]) -> usize
    requires { length loads.now ≡ most_workers }
    ensures { result ≡ heaviest_of loads.now }
{
    let mut best = 0;
    for w in 1..WORKERS {
        if loads[best] < loads[w] {
            best = w;
        }
    }
    best
}

// What a call answers of its workers' work.
#[derive(Clone, Copy)]
pub struct Totals {
    pub loads: [u64; WORKERS],
    pub heaviest: usize,
    pub classes: [u64; CLASSES],
}

impl Totals {
    // The totals beside a refusal: all 0.
    pub fn none() -> Totals
        ensures { result ≡ no_totals }
    {
        Totals {
            loads: [0; WORKERS],
            heaviest: 0,
            classes: [0; CLASSES],
        }
    }
}

// The totals on the loads of workers and classes that a walk comes to.
pub fn totals_of(loads: [u64; WORKERS], classes: [u64; CLASSES]) -> Totals
    ensures { result ≡ totals_of loads classes }
{
    let most = heaviest(&loads);
    Totals {
        loads,
        heaviest: most,
        classes,
    }
}
