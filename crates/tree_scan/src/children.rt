// The children of a task (document 01, "The tree file"): where the child that a step opens has ended, and which finish child
// ends just before a step. A scan reads only the records between the step asked for and the answer.
ghost use Rattle.std.specs.Prelude.{◌≡◌};
ghost use Rattle.rules.specs.Tree.{kinds, cont as cont_at, finish_before};
ghost use Rattle.tree.specs.Steps.{maybe_step};

use super::task_of;
use tree::{END, FINISH, Step, TREE_RECORD, kind};

// The step after the end of the child that a step opens: its continuation. Where the tree has no such step, or ends before
// the child does, the count of steps.
pub fn cont(tree: &[u8], step: Step) -> Step
    ensures { result.0 ≡ cont_at (kinds tree.now) step.0 }
{
    let n = tree.len() / TREE_RECORD;
    let i = step.0;
    if n <= i {
        return Step(n);
    }
    let mut left: usize = 1;
    for j in i + 1..n {
        // The count is taken before it is looked at: no processor foresees the next kind, and so none has to.
        if tree[TREE_RECORD * j] == END {
            left -= 1;
        } else {
            left += 1;
        }
        if left == 0 {
            return Step(j + 1);
        }
    }
    Step(n)
}

// The finish child whose end stands just before a step.
pub fn finish_before(tree: &[u8], step: Step) -> Option<Step>
    ensures { result ≡ maybe_step (finish_before (kinds tree.now) step.0) }
{
    let i = step.0;
    if i == 0 {
        return None;
    }
    let end = i - 1;
    if kind(tree, Step(end)) != END {
        return None;
    }
    let task = task_of(tree, Step(end));
    let first = task.first.0;
    if first == 0 {
        return None;
    }
    if kind(tree, Step(first - 1)) != FINISH {
        return None;
    }
    Some(Step(first))
}
