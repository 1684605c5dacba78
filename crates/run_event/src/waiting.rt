// What a held step waits for (document 01, "Scheduling", and document 02, #104): the highest step of the finish child before it, or of
// the child's descendants, that has not run. The child is walked backwards from its end by blocks, and the walk ends at the first
// block with a step that has not run.
ghost use Rattle.std.specs.Prelude.{◌≡◌, ◌+◌, ◌≤◌, ◌<◌, ◌||◌, length, eqb, leb};
ghost use Rattle.rules.specs.Tree.{kinds, most_steps};
ghost use Rattle.tree_tables.specs.Terms.{Openers};
ghost use Rattle.tree.specs.Steps.{maybe_step};
ghost use Rattle.run_spec.specs.Deques.{unrun_mark, newest_mark};
ghost use Rattle.run_spec.specs.Running.{all_run, awaits as awaits_by};

use run_deques::NOT_RUN;
use tree::{MOST_STEPS, Step};
use tree_tables::lookup::finish_by;

// So many steps of a child are looked at together.
const BLOCK: usize = 128;

// Whether all steps from `first` to before `end`, which are a block, have run. It counts those that have not, and looks at all of
// them: a loop without a way out takes many bytes at a time, and more of them where the count has one byte.
fn all_run(place: &[u8; MOST_STEPS], first: Step, end: Step) -> bool
    requires { (end.0 ≤ most_steps) × (end.0 ≤ first.0 + 255) }
    ensures { result ≡ all_run place.now first.0 end.0 }
{
    let mut unrun: u8 = 0;
    for k in first.0..end.0 {
        if place[k] == NOT_RUN {
            unrun += 1;
        }
    }
    unrun == 0
}

// Where the block of steps before step `end` begins, which goes back no further than step `first`.
fn block_before(first: Step, end: Step) -> Step
    requires { (first.0 < end.0) × (end.0 ≤ most_steps) }
    ensures { (first.0 ≤ result.0) × (result.0 < end.0) × (end.0 ≤ result.0 + 255) }
{
    let from = first.0;
    let j = end.0;
    if from + BLOCK < j {
        return Step(j - BLOCK);
    }
    first
}

// The highest step from `first` to before `end` that has not run.
pub fn last_unrun(place: &[u8; MOST_STEPS], first: Step, end: Step) -> Option<Step>
    requires { end.0 ≤ most_steps }
    ensures { result ≡ maybe_step (newest_mark place.now unrun_mark first.0 end.0) }
{
    let from = first.0;
    let mut j = end.0;
    while from < j {
        let low = block_before(first, Step(j));
        if !all_run(place, low, Step(j)) {
            return run_deques::scan(place, NOT_RUN, low, Step(j));
        }
        j = low.0;
    }
    None
}

// The step that a held step waits for, or none.
pub fn awaits(tree: &[u8], openers: &[u16], place: &[u8; MOST_STEPS], step: Step) -> Option<Step>
    requires { (step.0 ≤ most_steps) × Openers (kinds tree.now) openers.now (length openers.now) }
    ensures { result ≡ maybe_step (awaits_by (kinds tree.now) place.now step.0) }
{
    match finish_by(tree, openers, step) {
        Some(first) => last_unrun(place, first, step),
        None => None,
    }
}

// Whether a held step may wait: where a table of openers is lent, only one at its worker's `low`.
pub fn may_wait(openers: &[u16], step: Step, low: Step) -> bool
    ensures { result ≡ leb (length openers.now) step.0 || eqb step.0 low.0 }
{
    let i = step.0;
    let from = low.0;
    if openers.len() <= i {
        return true;
    }
    i == from
}
