// The walk that finds the heaviest chain (document 02, #105): from the root on, while some weight is left, from an opening step to its
// child or to its continuation, and from an end to what follows the nearest finish child that it is in. A task whose end is passed is
// left for good, so all climbs together look at no task twice.
#![tactic(auto)]

ghost use Rattle.std.specs.Prelude.{◌≡◌, ◌+◌, ◌*◌, ◌/◌, ◌%◌, ◌≤◌, ◌<◌, length};
ghost use Rattle.rules.specs.Tree.{kinds, weights, kind_at};
ghost use Rattle.buffers.specs.Terms.{event_put};
ghost use Rattle.dag_chain.specs.Terms.{Held, AfterFinish, NextStep};
ghost use Rattle.dag_walk.specs.Terms.{Tables, Lasted, ChainWritten};

use tree::{END, FINISH, Step, kind, weight};
use tree_tables::wide;

// The step that follows the nearest finish child that an end is in.
fn after_finish(tree: &[u8], ends: &[u16], openers: &[u16], end: Step) -> Step
    requires tables { Tables tree.now ends.now openers.now }
    requires end_within { end.0 < length (kinds tree.now) }
    requires is_end { kind_at (kinds tree.now) end.0 ≡ 3 }
    requires held { Held (kinds tree.now) end.0 }
    ensures { AfterFinish (kinds tree.now) end.0 result.0 }
{
    let from = end.0;
    let mut next = from + 1;
    while kind(tree, Step(wide(openers[next]))) != FINISH {
        next = wide(ends[next]);
    }
    Step(next)
}

// The step that the chain goes on with. Of an async child and the continuation it is the one that lasts longer, and the child where both
// last the same: it has the lower number.
fn next_step(tree: &[u8], ends: &[u16], openers: &[u16], lasting: &[u64], step: Step) -> Step
    requires tables { Tables tree.now ends.now openers.now }
    requires lasted { Lasted tree.now lasting.now }
    requires step_within { step.0 < length (kinds tree.now) }
    requires held { kind_at (kinds tree.now) step.0 ≡ 3 → Held (kinds tree.now) step.0 }
    ensures { NextStep (kinds tree.now) (weights tree.now) step.0 result.0 }
{
    let own = kind(tree, step);
    if own == END {
        return after_finish(tree, ends, openers, step);
    }
    let child = step.0 + 1;
    if own == FINISH {
        return Step(child);
    }
    let after = wide(ends[child]);
    if lasting[after] <= lasting[child] {
        return Step(child);
    }
    Step(after)
}

// Stores step k of the chain.
fn put_step(chain: &mut [u8], k: usize, step: Step)
    requires { 2 * k + 2 ≤ length chain.old }
    ensures { chain.new ≡ event_put chain.old k (step.0 % 256) (step.0 / 256 % 256) }
{
    let number = step.0;
    buffers::put_event(chain, k, (number % 256) as u8, (number / 256 % 256) as u8);
}

// Writes the heaviest chain, the first of those that weigh the same, to the front of the lent buffer. Answers how many steps it has.
pub fn walk(tree: &[u8], ends: &[u16], openers: &[u16], lasting: &[u64], chain: &mut [u8]) -> usize
    requires tables { Tables tree.now ends.now openers.now }
    requires lasted { Lasted tree.now lasting.now }
    requires chain_room { 2 * length (kinds tree.now) ≤ length chain.old }
    ensures { let file = tree.now in
        ChainWritten (kinds file) (weights file) chain.old result chain.new }
{
    let mut step = Step(0);
    let mut left = lasting[0];
    let mut count = 0;
    loop {
        put_step(chain, count, step);
        count += 1;
        let own = weight(tree, step) as u64;
        if left <= own {
            return count;
        }
        left -= own;
        step = next_step(tree, ends, openers, lasting, step);
    }
}
