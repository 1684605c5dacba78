// The ordinal of a stolen step (document 01, "The tree file"), which a work-first trace has for it: counted on from that of an earlier
// step of its task.
ghost use Rattle.std.specs.Prelude.{◌≡◌, ◌≤◌, ◌<◌, length};
ghost use Rattle.rules.specs.Tree.{kinds, most_steps};
ghost use Rattle.run_spec.specs.Ordinals.{children_between, ordinal_from};

use policy::WORK_FIRST;
use tree::{END, MOST_STEPS, Ordinal, Step, TREE_RECORD};

// More than any ordinal of a tree.
const MANY_ORDINALS: usize = MOST_STEPS + 1;

// How many children are opened directly from step `from` to before step `to`: not those inside other children.
fn children_between(tree: &[u8], from: Step, to: Step) -> usize
    requires { to.0 ≤ length (kinds tree.now) }
    ensures value { result ≡ children_between (kinds tree.now) from.0 to.0 }
    ensures few { result ≤ to.0 }
{
    let mut depth: usize = 0;
    let mut children: usize = 0;
    for j in from.0..to.0 {
        if tree[TREE_RECORD * j] == END {
            depth = depth.saturating_sub(1);
        } else {
            if depth == 0 {
                children += 1;
            }
            depth += 1;
        }
    }
    children
}

// The ordinal of the step that step `pusher` pushes, from the ordinal of an earlier step of its task; 0 under help-first,
// which counts none. No ordinal is above 4,095.
pub fn ordinal_from(tree: &[u8], policy: u8, base: Ordinal, from: Step, pusher: Step) -> Ordinal
    requires { (pusher.0 ≤ length (kinds tree.now)) × (length (kinds tree.now) ≤ most_steps) }
    ensures ordinal { result.0 ≡ ordinal_from policy (kinds tree.now) base.0 from.0 pusher.0 }
    ensures small { result.0 < 65536 }
{
    if policy == WORK_FIRST {
        return Ordinal(base.0 % MANY_ORDINALS + children_between(tree, from, pusher) + 1);
    }
    Ordinal(0)
}
