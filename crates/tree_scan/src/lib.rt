// The task of a step and the step's ordinal in it (document 01, "The tree file"), found by a scan. Every function takes any bytes
// and any step, stays within the slice and ends; a scan reads only the records between the step asked for and the answer.
#![tactic(auto)]

pub mod children;

ghost use Rattle.std.specs.Prelude.{◌≡◌};
ghost use Rattle.rules.specs.Tree.{kinds, ordinal};
ghost use Rattle.tree_scan.specs.Contract.{task_of};

use tree::{END, Ordinal, Step, TREE_RECORD};

// The task of a step, named by its first step, and the step's ordinal in it.
#[derive(Clone, Copy)]
pub struct Task {
    pub first: Step,
    pub ordinal: Ordinal,
}

pub fn task_of(tree: &[u8], step: Step) -> Task
    ensures { result ≡ task_of (kinds tree.now) step.0 }
{
    let n = tree.len() / TREE_RECORD;
    let mut ended: usize = 0;
    let mut children: usize = 0;
    for j in (0..step.0.min(n)).rev() {
        if tree[TREE_RECORD * j] == END {
            ended += 1;
            continue;
        }
        if ended == 0 {
            return Task {
                first: Step(j + 1),
                ordinal: Ordinal(children),
            };
        }
        ended -= 1;
        if ended == 0 {
            children += 1;
        }
    }
    Task {
        first: Step(0),
        ordinal: Ordinal(children),
    }
}

// The ordinal of a step in its task.
#[tactic(auto, unfolding(crate::specs::Contract::task_of))]
pub fn ordinal_of(tree: &[u8], step: Step) -> Ordinal
    ensures { result.0 ≡ ordinal (kinds tree.now) step.0 }
{
    let task = task_of(tree, step);
    task.ordinal
}
