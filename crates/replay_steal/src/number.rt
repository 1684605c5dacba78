// The step that a trace number names (document 01, "Trace, log, run list"): an ordinal the frontier task's step of that ordinal, a
// serial number the step of that number, where it can have been pushed.
ghost use Rattle.std.specs.Prelude.{◌≡◌, ◌||◌, length};
ghost use Rattle.rules.specs.Tree.{kinds};
ghost use Rattle.rules.specs.Traces.{starts_async, follows_finish};
ghost use Rattle.tree_tables.specs.Terms.{Ends, Openers};
ghost use Rattle.replay_invariant.specs.Terms.{hopped};
ghost use Rattle.tree.specs.Steps.{maybe_step};
ghost use Rattle.replay_spec.specs.Naming.{step_named};

use trace::number::TraceNumber;
use tree::{ASYNC, END, Ordinal, Step, kind};
use tree_tables::lookup::{cont_by, finish_by};

// From a step over so many children of its task: each time on to the step after the end of the child that is opened. None where
// a step on the way ends the task.
fn hop(tree: &[u8], ends: &[u16], from: Step, children: usize) -> Option<Step>
    requires { Ends (kinds tree.now) ends.now (length ends.now) }
    ensures { result ≡ maybe_step (hopped (kinds tree.now) children from.0) }
{
    let mut step = from;
    for _ in 0..children {
        if kind(tree, step) == END {
            return None;
        }
        step = cont_by(tree, ends, step);
    }
    Some(step)
}

// Whether a step is the first of an async child, or the step after a finish child.
fn async_or_after_finish(tree: &[u8], openers: &[u16], step: Step) -> bool
    requires { Openers (kinds tree.now) openers.now (length openers.now) }
    ensures { let ks = kinds tree.now in
        result ≡ starts_async ks step.0 || follows_finish ks step.0 }
{
    let s = step.0;
    if s == 0 {
        return false;
    }
    if kind(tree, Step(s - 1)) == ASYNC {
        return true;
    }
    match finish_by(tree, openers, step) {
        Some(first) => true,
        None => false,
    }
}

// The step that a trace number names in a phase. An ordinal is found from `base`, a step of the frontier task, whose ordinal is
// given; a serial number is the step itself.
pub fn step_named(
    tree: &[u8],
    ends: &[u16],
    openers: &[u16],
    base: Step,
    ordinal: Ordinal,
    number: TraceNumber,
) -> Option<Step>
    requires ends { Ends (kinds tree.now) ends.now (length ends.now) }
    requires openers { Openers (kinds tree.now) openers.now (length openers.now) }
    ensures { result ≡ maybe_step (step_named (kinds tree.now) base.0 ordinal.0 number) }
{
    match number {
        TraceNumber::ByOrdinal(wanted) => {
            let to = wanted.0;
            let from = ordinal.0;
            if to <= from {
                return None;
            }
            hop(tree, ends, base, to - from)
        }
        TraceNumber::BySerial(step) => {
            let s = step.0;
            if tree::steps(tree) <= s {
                return None;
            }
            if !async_or_after_finish(tree, openers, step) {
                return None;
            }
            Some(step)
        }
    }
}
