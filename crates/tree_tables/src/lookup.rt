// What is looked up in the tables of a tree. A lookup past a table's end scans the tree.
ghost use Rattle.std.specs.Prelude.{◌≡◌, length};
ghost use Rattle.rules.specs.Tree.{kinds, cont as cont_at, finish_before};
ghost use Rattle.tree.specs.Steps.{maybe_step};
ghost use Rattle.tree_tables.specs.Terms.{Ends, Openers};

use super::wide;
use tree::{END, FINISH, Step, kind};
use tree_scan::children::{cont, finish_before};

// The step after the end of the child that a step opens: its continuation.
pub fn cont_by(tree: &[u8], ends: &[u16], step: Step) -> Step
    requires { Ends (kinds tree.now) ends.now (length ends.now) }
    ensures { result.0 ≡ cont_at (kinds tree.now) step.0 }
{
    let i = step.0;
    if ends.len() <= i {
        return cont(tree, step);
    }
    if ends.len() <= i + 1 {
        return cont(tree, step);
    }
    Step(wide(ends[i + 1]))
}

// The finish child whose end stands just before a step.
pub fn finish_by(tree: &[u8], openers: &[u16], step: Step) -> Option<Step>
    requires { Openers (kinds tree.now) openers.now (length openers.now) }
    ensures { result ≡ maybe_step (finish_before (kinds tree.now) step.0) }
{
    let j = step.0;
    if openers.len() <= j {
        return finish_before(tree, step);
    }
    if j == 0 {
        return None;
    }
    if kind(tree, Step(j - 1)) != END {
        return None;
    }
    let opener = wide(openers[j]);
    if kind(tree, Step(opener)) != FINISH {
        return None;
    }
    Some(Step(opener + 1))
}
