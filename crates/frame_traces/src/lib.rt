// Recording and replay as C sees them: a whole list of events becomes a log and a trace, a trace becomes a run list. Answers are
// flat structs of numbers, and a slice is a pointer and a length. Every function takes any bytes and any numbers.
#![tactic(auto)]

ghost use Rattle.std.specs.Prelude.{◌≡◌};
ghost use Rattle.rules.specs.Calls.{record_call, replay_call};
ghost use Rattle.record.specs.Contract.{answers as record_answers};
ghost use Rattle.replay.specs.Contract.{answers as replay_answers};
ghost use Rattle.frame_answers.specs.Contract.{flat_record, flat_replay};

use frame_answers::{FrameRecord, FrameReplay};
use policy::Setup;

// Records a list of events: the log and the trace stand at the front of the lent buffers then, and beyond them their old bytes.
// A refusal changes no byte.
#[unsafe(no_mangle)]
pub extern "C" fn frame_record(
    tree: &[u8],
    policy: u8,
    workers: u8,
    events: &[u8],
    log: &mut [u8],
    trace: &mut [u8],
) -> FrameRecord
    ensures answers { let call = record_call workers policy tree.now events.now log.old trace.old in
        result ≡ flat_record (record_answers call) }
    ensures log { let call = record_call workers policy tree.now events.now log.old trace.old in
        log.new ≡ call.log }
    ensures trace { let call = record_call workers policy tree.now events.now log.old trace.old in
        trace.new ≡ call.trace }
{
    let setup = Setup::of(policy, workers);
    record::record(tree, setup, events, log, trace).into()
}

// Replays a trace: the run list stands at the front of the lent buffer then, and beyond it its old bytes. A refusal changes no
// byte.
#[unsafe(no_mangle)]
pub extern "C" fn frame_replay(
    tree: &[u8],
    policy: u8,
    workers: u8,
    trace: &[u8],
    list: &mut [u8],
) -> FrameReplay
    ensures answers { let call = replay_call workers policy tree.now trace.now list.old in
        result ≡ flat_replay (replay_answers call) }
    ensures list { let call = replay_call workers policy tree.now trace.now list.old in
        list.new ≡ call.list }
{
    let setup = Setup::of(policy, workers);
    replay::replay(tree, setup, trace, list).into()
}
