// One steal of a trace (document 01, "Trace, log, run list"), in three modules: `workers` judges a trace record's workers, `number`
// finds the step that its number names, `phase` has what beginning a phase stores. `read_steal` reads a number against the victim's
// phase: it names a step, if all from that step to the end of its task is still in the phase.
#![tactic(auto)]

pub mod number;
pub mod phase;
pub mod workers;

ghost use Rattle.std.specs.Prelude.{◌≡◌, ◌<◌, length, get_or};
ghost use Rattle.rules.specs.Tree.{kinds, tree_verdict};
ghost use Rattle.tree_tables.specs.Terms.{Ends, Openers};
ghost use Rattle.policy.specs.Contract.{most_phases};
ghost use Rattle.replay_invariant.specs.Terms.{free, label_of};
ghost use Rattle.replay_spec.specs.Naming.{step_named};
ghost use Rattle.replay_spec.specs.Reading.{Reading};

use policy::MOST_PHASES;
use trace::number::TraceNumber;
use tree::{Ordinal, Phase, Step};
use tree_tables::wide;

// Reads a number against a phase: gives the step that it names, if that step can be stolen from the phase. The steps above it
// are labelled then. The tables have for each phase a step of its frontier task, and that step's ordinal.
pub fn read_steal(
    tree: &[u8],
    ends: &[u16],
    openers: &[u16],
    labels: &mut [u16],
    bases: &[u16; MOST_PHASES],
    ordinals: &[u16; MOST_PHASES],
    phase: Phase,
    number: TraceNumber,
) -> Option<Step>
    requires base { let base = get_or bases.now phase.0 0 in
        ((tree_verdict tree.now).number ≡ 0) × (phase.0 < most_phases) × (base < length (kinds tree.now)) }
    requires ends { Ends (kinds tree.now) ends.now (length ends.now) }
    requires openers { (length openers.now ≡ length (kinds tree.now)) × Openers (kinds tree.now) openers.now (length openers.now) }
    requires labels { (length labels.old ≡ length (kinds tree.now)) × (label_of labels.old 0 ≡ free → ⊥) }
    requires tables { (length bases.now ≡ most_phases) × (length ordinals.now ≡ most_phases) }
    ensures { let base = get_or bases.now phase.0 0 in
        let ordinal = get_or ordinals.now phase.0 0 in
        let step = step_named (kinds tree.now) base ordinal number in
        Reading openers.now labels.old step phase.0 result labels.new }
{
    let at = phase.0;
    let base = Step(wide(bases[at]));
    let ordinal = Ordinal(wide(ordinals[at]));
    let step = number::step_named(tree, ends, openers, base, ordinal, number)?;
    if !replay_labels::take(openers, labels, step, phase) {
        return None;
    }
    Some(step)
}
