// The labels of the steps in replay, by which the phases' steps are kept: a step is labelled with the phase that has it once it
// can be stolen no more, because a phase begins with it or with a step in its part. So each step is labelled once, and the
// nearest labelled step above another tells whose that one is.
#![tactic(auto)]

ghost use Rattle.std.specs.Prelude.{◌≡◌, not, ◌≤◌, ◌<◌, length};
ghost use Rattle.replay_invariant.specs.Terms.{free, label_of};
ghost use Rattle.policy.specs.Contract.{most_phases};
ghost use Rattle.replay_spec.specs.Labels.{Upward, Claimed, Taking, dropped};

use replay_spec::FREE;
use tree::{Phase, Step};
use tree_tables::wide;

// Labels the free steps above a step with a phase, from opener to opener, up to the first labelled one. Gives that one's label.
fn claim(openers: &[u16], labels: &mut [u16], step: Step, phase: Phase) -> Phase
    requires step { (0 < step.0) × (step.0 < length openers.now) × (length openers.now ≤ length labels.old) × Upward openers.now }
    requires phase { (phase.0 < most_phases) × (label_of labels.old 0 ≡ free → ⊥) }
    ensures { Claimed openers.now labels.old step.0 phase.0 labels.new result.0 }
{
    let label = phase.0 as u16;
    let from = step.0;
    let mut j = wide(openers[from]);
    while labels[j] == FREE {
        labels[j] = label;
        j = wide(openers[j]);
    }
    Phase(wide(labels[j]))
}

// Takes a step from a phase: whether all from it to the end of its task is still the phase's. The steps above it are labelled
// then.
pub fn take(openers: &[u16], labels: &mut [u16], step: Step, phase: Phase) -> bool
    requires step { (step.0 < length openers.now) × (length openers.now ≤ length labels.old) × Upward openers.now }
    requires phase { (phase.0 < most_phases) × (label_of labels.old 0 ≡ free → ⊥) }
    ensures { Taking openers.now labels.old step.0 phase.0 result labels.new }
{
    let at = step.0;
    if labels[at] != FREE {
        return false;
    }
    let found = claim(openers, labels, step, phase);
    found == phase
}

// Whether a step that a phase pushes stays with it: it has no label, or the phase's.
pub fn stays(labels: &[u16], step: Step, phase: Phase) -> bool
    requires { step.0 < length labels.now }
    ensures { result ≡ not (dropped labels.now step.0 phase.0) }
{
    let at = step.0;
    if labels[at] == FREE {
        return true;
    }
    Phase(wide(labels[at])) == phase
}
