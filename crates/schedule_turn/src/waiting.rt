// What a worker that waits is noted to wait for: a step of the finish child before its own or of the child's descendants. While that
// has not run the worker waits, and the child need not be looked through; when it has, the next is looked for below it.
ghost use Rattle.std.specs.Prelude.{◌≡◌, ◌≤◌, length};
ghost use Rattle.rules.specs.Tree.{kinds, most_steps};
ghost use Rattle.tree_tables.specs.Terms.{Openers};
ghost use Rattle.schedule_turn.specs.Terms.{Noted, unrun_still};

use run_deques::NOT_RUN;
use tree::{MOST_STEPS, Step};
use tree_tables::lookup::finish_by;

// A step that a held step waits for, the highest before step `end`. None where there is none, where `end` is no step, as for a worker
// that was not seen to wait, or where it is not one of those up to the held step.
pub fn awaited_before(
    tree: &[u8],
    openers: &[u16],
    place: &[u8; MOST_STEPS],
    step: Step,
    end: Step,
) -> Option<Step>
    requires { (step.0 ≤ most_steps) × Openers (kinds tree.now) openers.now (length openers.now) }
    ensures { Noted (kinds tree.now) place.now step.0 result }
{
    let i = step.0;
    let j = end.0;
    // As in `unrun_still`, which was asked before: a worker that was not seen to wait costs one comparison for both.
    if MOST_STEPS <= j {
        return None;
    }
    if i < j {
        return None;
    }
    let first = finish_by(tree, openers, step)?;
    run_event::waiting::last_unrun(place, first, end)
}

// Whether this is a step, and has not run.
#[tactic(auto, unfolding(crate::specs::Terms::unrun_still, run_spec::specs::Deques::marked))]
pub fn unrun_still(place: &[u8; MOST_STEPS], step: Step) -> bool
    ensures { result ≡ unrun_still place.now step.0 }
{
    let j = step.0;
    if MOST_STEPS <= j {
        return false;
    }
    place[j] == NOT_RUN
}
