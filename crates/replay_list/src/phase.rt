// A phase's running order (document 01, "Trace, log, run list"): the phase is run alone, with a stack of what it has pushed; a
// pushed step that has the label of another phase was stolen, and is dropped.
ghost use Rattle.std.specs.Prelude.{◌≡◌, length};
ghost use Rattle.rules.specs.Tree.{kinds, tree_verdict};
ghost use Rattle.rules.specs.Traces.{entry_bytes};
ghost use Rattle.rules.specs.Calls.{most_trace_records, written};
ghost use Rattle.tree_tables.specs.Terms.{Ends};
ghost use Rattle.replay_spec.specs.Orders.{phase_order, in_phase, Writable};

use policy::{held_after, pushed_by};
use replay_labels::stays;
use tree::{END, Phase, Step, kind};
use tree_tables::wide;

// Runs a phase alone from its first step, and writes a record for each step to the front of its part of the list. Gives their
// count.
pub fn write_phase(
    tree: &[u8],
    ends: &[u16],
    labels: &[u16],
    policy: u8,
    phase: Phase,
    first: Step,
    stack: &mut [u16],
    list: &mut [u8],
) -> usize
    requires accepted { ((tree_verdict tree.now).number ≡ 0) × Ends (kinds tree.now) ends.now (length ends.now) }
    requires rooms { (length labels.now ≡ length (kinds tree.now)) × (length stack.old ≡ most_trace_records) }
    requires writable { Writable policy (kinds tree.now) labels.now phase.0 first.0 (length list.old) }
    ensures counts { let order = phase_order policy (kinds tree.now) labels.now phase.0 first.0 in
        result ≡ length order }
    ensures list { let order = phase_order policy (kinds tree.now) labels.now phase.0 first.0 in
        list.new ≡ written (entry_bytes (in_phase phase.0 order)) list.old }
{
    let mut held = first;
    let mut depth: usize = 0;
    let mut count: usize = 0;
    loop {
        let at = count;
        count += 1;
        trace::put_entry(list, at, phase, held);
        if kind(tree, held) == END {
            if depth == 0 {
                return count;
            }
            depth -= 1;
            held = Step(wide(stack[depth]));
            continue;
        }
        let push = pushed_by(tree, ends, policy, held);
        let hold = held_after(tree, ends, policy, held);
        held = hold;
        if stays(labels, push, phase) {
            stack[depth] = push.0 as u16;
            depth += 1;
        }
    }
}
