// Recording: a list of events becomes the log and the trace, or a refusal with its position (document 01, "Trace, log, run list"
// and "Refusals"). Log and trace are written once every event is accepted.
#![tactic(auto)]

pub mod body;

ghost use Rattle.std.specs.Prelude.{◌≡◌};
ghost use Rattle.rules.specs.Calls.{record_call};
ghost use Rattle.record.specs.Contract.{answers, answers_of};

use loads::Totals;
use policy::Setup;
use refusals::Refused;
use tree::CLASSES;

// What an accepted call answers (document 01, "Trace, log, run list"; document 02, #103): the counts of log and trace records, whether
// every step has run, and the loads of workers and classes.
#[derive(Clone, Copy)]
pub struct Recorded {
    pub logs: usize,
    pub steals: usize,
    pub finished: bool,
    pub totals: Totals,
}

// Records a list of events: refusals 1 to 12 and 16, or the log and the trace at the front of the lent buffers.
pub fn record(
    tree: &[u8],
    setup: Setup,
    events: &[u8],
    log: &mut [u8],
    trace: &mut [u8],
) -> Result<Recorded, Refused>
    ensures answers { let call = record_call setup.workers setup.policy tree.now events.now log.old
        trace.old in
        answers_of result ≡ answers call }
    ensures log { let call = record_call setup.workers setup.policy tree.now events.now log.old
        trace.old in
        log.new ≡ call.log }
    ensures trace { let call = record_call setup.workers setup.policy tree.now events.now log.old
        trace.old in
        trace.new ≡ call.trace }
{
    let steps = arguments::judge_record(tree, setup, events, log.len(), trace.len())?;
    let mut classes: [u64; CLASSES] = [0; CLASSES];
    let walked = body::run(tree, setup, events, log, trace, &mut classes)?;
    Ok(Recorded {
        logs: walked.logs,
        steals: walked.steals,
        finished: walked.logs == steps,
        totals: loads::totals_of(walked.loads, classes),
    })
}
