// How long it is from the start of each step to the end of the rest of its task and of all that this spawned (document 02, #105), in a
// table that is filled once, and with it the tree's tables of ends and openers: one look at each step tells all three. A task and the
// rest of a task are filled through each other, from the end back, since an opening step needs what its child and its continuation last,
// and both stand behind it. The stack is as deep as tasks are open together: at most 64.
#![tactic(auto)]

ghost use Rattle.std.specs.Prelude.{◌≡◌, suc, ◌≤◌, length};
ghost use Rattle.rules.specs.Tree.{is_finish, kinds, weights, kind_at, task as first_of, tree_verdict};
ghost use Rattle.dag_chain.specs.Terms.{joined as joined_by};
ghost use Rattle.dag_lasting.specs.Terms.{longest, Lasting, Filled, Tabled, Room};
ghost use Rattle.tree_tables.specs.Terms.{Ends, Openers};

use tree::{END, FINISH, Step, kind, steps, weight};

// What an opening step lasts: the rest of its task waits for a finish child, and goes on beside an async child.
#[tactic(auto, unfolding(dag_chain::specs::Terms::joined, rules::specs::Tree::is_finish))]
fn joined(kind: u8, own: u32, child: u64, rest: u64) -> u64
    requires child_le_longest { child ≤ longest }
    requires rest_le_longest { rest ≤ longest }
    ensures { result ≡ joined_by (is_finish kind) own child rest }
{
    let own = own as u64;
    if kind == FINISH {
        return own + (child + rest);
    }
    own + child.max(rest)
}

// A task, from its end back to its first step, which is answered.
#[cycle(rest_task)]
fn task(tree: &[u8], end: Step, lasting: &mut [u64], ends: &mut [u16], openers: &mut [u16]) -> Step
    requires room { Room tree.now lasting.old end.0 }
    requires is_end { kind_at (kinds tree.now) end.0 ≡ 3 }
    requires tabled { Tabled (kinds tree.now) ends.old openers.old ends.old openers.old (suc end.0) }
    ensures first { result.0 ≡ first_of (kinds tree.now) end.0 }
    ensures filled { let file = tree.now in
        Filled (kinds file) (weights file) lasting.old lasting.new result.0 end.0 }
    ensures tabled { let ks = kinds tree.now in
        Tabled ks ends.old openers.old ends.new openers.new result.0 }
{
    let last = end.0;
    lasting[last] = weight(tree, end) as u64;
    ends[last] = (last + 1) as u16;
    rest(tree, end, lasting, ends, openers)
}

// The rest of a task, from a step that is filled back to the first, which is answered: its children from the last to the first, and the
// opener of each.
#[cycle(rest_task)]
fn rest(tree: &[u8], from: Step, lasting: &mut [u64], ends: &mut [u16], openers: &mut [u16]) -> Step
    requires room { Room tree.now lasting.old from.0 }
    requires lasting { Lasting (kinds tree.now) (weights tree.now) lasting.old from.0 (suc from.0) }
    requires tabled { Tabled (kinds tree.now) ends.old openers.old ends.old openers.old from.0 }
    ensures first { result.0 ≡ first_of (kinds tree.now) from.0 }
    ensures filled { let file = tree.now in
        Filled (kinds file) (weights file) lasting.old lasting.new result.0 from.0 }
    ensures tabled { let ks = kinds tree.now in
        Tabled ks ends.old openers.old ends.new openers.new result.0 }
{
    let mut at = from.0;
    while 0 < at {
        let end = at - 1;
        if kind(tree, Step(end)) != END {
            return Step(at);
        }
        let child = task(tree, Step(end), lasting, ends, openers);
        let first = child.0;
        let opener = first - 1;
        let own = weight(tree, Step(opener));
        lasting[opener] = joined(kind(tree, Step(opener)), own, lasting[first], lasting[at]);
        ends[opener] = ends[at];
        openers[first] = opener as u16;
        openers[at] = opener as u16;
        at = opener;
    }
    Step(at)
}

// Fills the tables of an accepted tree.
pub fn fill(tree: &[u8], lasting: &mut [u64], ends: &mut [u16], openers: &mut [u16])
    requires accepted { (tree_verdict tree.now).number ≡ 0 }
    requires lasting_room { length (kinds tree.now) ≤ length lasting.old }
    requires ends_room { length (kinds tree.now) ≤ length ends.old }
    requires openers_room { length (kinds tree.now) ≤ length openers.old }
    ensures lasting { let file = tree.now in
        Lasting (kinds file) (weights file) lasting.new 0 (length (kinds file)) }
    ensures ends { let ks = kinds tree.now in Ends ks ends.new (length ks) }
    ensures openers { let ks = kinds tree.now in Openers ks openers.new (length ks) }
{
    let end = steps(tree) - 1;
    task(tree, Step(end), lasting, ends, openers);
}
