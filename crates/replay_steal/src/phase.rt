// How a phase begins (document 01, "Trace, log, run list"), in the tables of replay: the labels of the steps, the phases' first
// steps, for each phase the step and the ordinal from which its frontier task is walked, and the workers' latest phases.
ghost use Rattle.std.specs.Prelude.{◌≡◌, ◌<◌, length, get_or, set};
ghost use Rattle.rules.specs.Scheduling.{most_workers};
ghost use Rattle.policy.specs.Contract.{most_phases};
ghost use Rattle.replay_spec.specs.Begins.{bases_begun, ordinals_begun};

use policy::{MOST_PHASES, WORKERS};
use replay_spec::Begun;

// Phase 0 begins: worker 0 has step 0 and all the weight.
pub fn begin_first(
    labels: &mut [u16],
    firsts: &mut [u16; MOST_PHASES],
    latest: &mut [u16; WORKERS],
    loads: &mut [u64; WORKERS],
    weight: u64,
)
    requires rooms { (0 < length labels.old) × (length firsts.old ≡ most_phases) }
    requires workers { (length latest.old ≡ most_workers) × (length loads.old ≡ most_workers) }
    ensures labels { labels.new ≡ set labels.old 0 0 }
    ensures firsts { firsts.new ≡ set firsts.old 0 0 }
    ensures latest { latest.new ≡ set latest.old 0 0 }
    ensures loads { loads.new ≡ set loads.old 0 weight }
{
    labels[0] = 0;
    firsts[0] = 0;
    latest[0] = 0;
    loads[0] = weight;
}

// A phase begins with a step that is stolen from another. The victim's frontier task is now the child whose end stands just
// before the step: it is walked from its first step, which follows the step's opener.
#[tactic(auto, unfolding(replay_spec::specs::Begins::bases_begun, replay_spec::specs::Begins::ordinals_begun))]
pub fn begin(
    openers: &[u16],
    labels: &mut [u16],
    firsts: &mut [u16; MOST_PHASES],
    bases: &mut [u16; MOST_PHASES],
    ordinals: &mut [u16; MOST_PHASES],
    latest: &mut [u16; WORKERS],
    begun: Begun,
)
    requires phases { (begun.phase.0 < most_phases) × (begun.from.0 < most_phases) × (begun.thief < most_workers) }
    requires step { (begun.step.0 < 65536) × (begun.step.0 < length openers.now) × (get_or openers.now begun.step.0 0 < 65535) }
    requires rooms { (begun.step.0 < length labels.old) × (length firsts.old ≡ most_phases) × (length bases.old ≡ most_phases) }
    requires ordinals { (length ordinals.old ≡ most_phases) × (length latest.old ≡ most_workers) × (begun.ordinal.0 < 65536) }
    ensures labels { labels.new ≡ set labels.old begun.step.0 begun.phase.0 }
    ensures firsts { firsts.new ≡ set firsts.old begun.phase.0 begun.step.0 }
    ensures bases { let after = bases_begun openers.now bases.old begun.from.0 begun.phase.0 begun.step.0 in
        bases.new ≡ after }
    ensures ordinals { let after = ordinals_begun ordinals.old begun.from.0 begun.phase.0 begun.ordinal.0 in
        ordinals.new ≡ after }
    ensures latest { latest.new ≡ set latest.old begun.thief begun.phase.0 }
{
    let phase = begun.phase.0;
    let from = begun.from.0;
    let thief = begun.thief;
    let step = begun.step.0;
    labels[step] = phase as u16;
    firsts[phase] = step as u16;
    bases[from] = openers[step] + 1;
    bases[phase] = step as u16;
    ordinals[from] = 0;
    ordinals[phase] = begun.ordinal.0 as u16;
    latest[thief] = phase as u16;
}
