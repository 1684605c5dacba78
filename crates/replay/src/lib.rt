// Replay: a trace becomes the run list, or a refusal with its position (document 01, "Trace, log, run list" and "Refusals").
// The list is written once every record is accepted, unless the caller has no room for the trace (document 02, #106).
#![tactic(auto)]

pub mod body;

ghost use Rattle.std.specs.Prelude.{◌≡◌};
ghost use Rattle.rules.specs.Calls.{replay_call};
ghost use Rattle.replay.specs.Contract.{answers, answers_of};
ghost use Rattle.replay.specs.Terms.{replay_unless};

use loads::Totals;
use policy::{Setup, WORKERS};
use refusals::Refused;
use tree::CLASSES;

// What a replay call answers (document 01, "Trace, log, run list"; document 02, #103): the count of phases, each worker's load, the
// heaviest worker and each class's load.
#[derive(Clone, Copy)]
pub struct Replayed {
    pub phases: usize,
    pub loads: [u64; WORKERS],
    pub heaviest: usize,
    pub classes: [u64; CLASSES],
}

// Replays a trace as `replay` does, unless the caller is full: then nothing is written, and refusal 17 follows all others.
pub fn replay_unless(
    tree: &[u8],
    setup: Setup,
    trace: &[u8],
    list: &mut [u8],
    full: bool,
) -> Result<Replayed, Refused>
    ensures answers { let unless = replay_unless full setup.workers setup.policy in
        let told = unless tree.now trace.now list.old in
        answers_of result ≡ answers told }
    ensures list { let unless = replay_unless full setup.workers setup.policy in
        let told = unless tree.now trace.now list.old in
        list.new ≡ told.list }
{
    let steps = arguments::judge_replay(tree, setup, trace, list.len())?;
    let mut classes: [u64; CLASSES] = [0; CLASSES];
    let ended = body::run(tree, setup, trace, steps, list, &mut classes, full)?;
    let walked = ended.loads;
    let Totals {
        loads,
        heaviest,
        classes,
    } = loads::totals_of(walked, classes);
    Ok(Replayed {
        phases: ended.phases,
        loads,
        heaviest,
        classes,
    })
}

// Replays a trace: refusals 1 to 8 and 13 to 16, or the run list at the front of the lent buffer.
pub fn replay(tree: &[u8], setup: Setup, trace: &[u8], list: &mut [u8]) -> Result<Replayed, Refused>
    ensures answers { let call = replay_call setup.workers setup.policy tree.now trace.now list.old in
        answers_of result ≡ answers call }
    ensures list { let call = replay_call setup.workers setup.policy tree.now trace.now list.old in
        list.new ≡ call.list }
{
    replay_unless(tree, setup, trace, list, false)
}
