// Tables of a tree: for each step the step after its task's end, and its opener. They are filled once where a whole list of
// events is run or made or a trace is replayed, so that no event and no steal scans the tree. A single event has none: its tables
// are empty.
#![tactic(auto)]

pub mod lookup;
pub mod sums;

ghost use Rattle.std.specs.Prelude.{◌≡◌, ◌≤◌, length};
ghost use Rattle.rules.specs.Tree.{kinds, tree_verdict};
ghost use Rattle.tree_tables.specs.Terms.{Ends, Openers};

use tree::{END, TREE_RECORD};

// An entry of a table as an index.
pub fn wide(x: u16) -> usize
    ensures { result ≡ x }
{
    x as usize
}

// Fills the tables of an accepted tree, from the last step to the first: an opening step's task ends where its continuation's
// does, and its continuation stands where its child's task ends.
pub fn fill(tree: &[u8], ends: &mut [u16], openers: &mut [u16])
    requires accepted { (tree_verdict tree.now).number ≡ 0 }
    requires ends_room { length (kinds tree.now) ≤ length ends.old }
    requires openers_room { length (kinds tree.now) ≤ length openers.old }
    ensures ends { let ks = kinds tree.now in Ends ks ends.new (length ks) }
    ensures openers { let ks = kinds tree.now in Openers ks openers.new (length ks) }
{
    let n = tree.len() / TREE_RECORD;
    for j in (0..n).rev() {
        if tree[TREE_RECORD * j] == END {
            ends[j] = (j + 1) as u16;
            continue;
        }
        let after = wide(ends[j + 1]);
        ends[j] = ends[after];
        openers[j + 1] = j as u16;
        openers[after] = j as u16;
    }
}
