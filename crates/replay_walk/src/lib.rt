// The walk over a trace's records (document 01, "Trace, log, run list"): each is read against the victim's latest phase and
// begins a phase. What it comes to is a refusal with its position, or the first steps of the phases, the labels of the steps
// and the loads.
#![tactic(auto)]

ghost use Rattle.std.specs.Prelude.{◌≡◌, true, ◌<◌, length, replicate};
ghost use Rattle.rules.specs.Tree.{kinds, weights};
ghost use Rattle.rules.specs.Bytes.{whole_records};
ghost use Rattle.rules.specs.Calls.{most_trace_records, start_verdict};
ghost use Rattle.tree_tables.specs.Terms.{Ends, Openers, Sums};
ghost use Rattle.replay_invariant.specs.Terms.{free};
ghost use Rattle.policy.specs.Contract.{most_phases};
ghost use Rattle.replay_walk.specs.Terms.{Retraced};

use policy::{MOST_PHASES, Setup, WORKERS};
use refusals::{Refusal, Refused};
use replay_spec::{Begun, NO_PHASE};
use tree::Phase;
use tree_tables::wide;

// What the walk over the records comes to, where none is refused.
#[derive(Clone, Copy)]
pub struct Ended {
    pub phases: usize,
    pub loads: [u64; WORKERS],
}

// Reads the records from the first on, up to the first that is refused, with the tree's tables. The labels are all free at
// first.
pub fn walk(
    tree: &[u8],
    ends: &[u16],
    openers: &[u16],
    sums: &[u64],
    setup: Setup,
    trace: &[u8],
    labels: &mut [u16],
    firsts: &mut [u16; MOST_PHASES],
) -> Result<Ended, Refused>
    requires start { let start = start_verdict setup.workers setup.policy tree.now in
        (start.number ≡ 0) × (whole_records 4 most_trace_records trace.now ≡ true) }
    requires ends { let ks = kinds tree.now in
        (length ends.now ≡ length ks) × Ends ks ends.now (length ends.now) }
    requires openers { let ks = kinds tree.now in
        (length openers.now ≡ length ks) × Openers ks openers.now (length openers.now) }
    requires sums { let n = length (kinds tree.now) in
        (n < length sums.now) × Sums (weights tree.now) sums.now n }
    requires fresh { (labels.old ≡ replicate (length (kinds tree.now)) free) × (length firsts.old ≡ most_phases) }
    ensures { let ended = Retraced setup.workers setup.policy tree.now trace.now result in
        ended labels.new firsts.new }
{
    let mut bases: [u16; MOST_PHASES] = [0; MOST_PHASES];
    let mut ordinals: [u16; MOST_PHASES] = [0; MOST_PHASES];
    let mut latest: [u16; WORKERS] = [NO_PHASE; WORKERS];
    let mut loads: [u64; WORKERS] = [0; WORKERS];
    let weight = sums[tree::steps(tree)];
    replay_steal::phase::begin_first(labels, firsts, &mut latest, &mut loads, weight);
    let records = trace.len() / buffers::RECORD;
    for at in 0..records {
        let steal = trace::record_at(trace, at);
        let judged = replay_steal::workers::judge_workers(
            &latest,
            setup.workers,
            steal.thief,
            steal.victim,
        );
        if let Err(refusal) = judged {
            return Err(refusal.at(at));
        }
        let thief = steal.thief as usize;
        let victim = steal.victim as usize;
        // The victim's latest phase. Record k begins phase k + 1.
        let phase = Phase(wide(latest[victim]));
        let number = trace::number::decode_number(setup.policy, steal.number);
        let Some(step) = replay_steal::read_steal(
            tree, ends, openers, labels, &bases, &ordinals, phase, number,
        ) else {
            return Err(Refusal::Number.at(at));
        };
        replay_steal::phase::begin(
            openers,
            labels,
            firsts,
            &mut bases,
            &mut ordinals,
            &mut latest,
            Begun {
                phase: Phase(at + 1),
                from: phase,
                thief,
                step,
                ordinal: trace::number::ordinal_in(number),
            },
        );
        loads::move_part(ends, sums, &mut loads, thief, victim, step);
    }
    Ok(Ended {
        phases: records + 1,
        loads,
    })
}
