// What a call is given, judged before any event or trace record is looked at or made (refusals 1 to 7 of document 01, 16 of document
// 02): policy, worker count and tree, the length of the events or the trace, and the room of the lent outputs.
#![tactic(auto)]

ghost use Rattle.std.specs.Prelude.{◌≡◌, ◌≤◌};
ghost use Rattle.rules.specs.Tree.{most_steps};
ghost use Rattle.tree.specs.Contract.{accepted_of};
ghost use Rattle.arguments.specs.Terms.{start_judged, judged, too_short, list_short, record_judged, replay_judged};
ghost use Rattle.arguments.specs.Terms.{schedule_judged};

use buffers::{EVENT, RECORD};
use policy::{HELP_FIRST, MOST_STEALS, Setup, WORK_FIRST, WORKERS};
use refusals::{Refusal, Refused};
use tree::validation::accept;
use tree_tables::wide;

// The most events of a record call.
pub const MOST_EVENTS: usize = 8192;

// Judges a policy, a worker count and a tree: refusals 1, 16 and 2 to 5 in this order, or how many steps the tree has.
#[tactic(auto, using(crate::specs::Laws::Starts::by_tree_laws))]
pub fn judge_start(tree: &[u8], setup: Setup) -> Result<usize, Refused>
    ensures { accepted_of result ≡ start_judged setup.workers setup.policy tree.now }
{
    if setup.policy < WORK_FIRST || HELP_FIRST < setup.policy {
        return Err(Refusal::Policy.into());
    }
    let workers = wide(setup.workers);
    if workers == 0 || WORKERS < workers {
        return Err(Refusal::Count.into());
    }
    accept(tree)
}

// Judges in rising number, after an accepted start: whether the call's records are whole and not too many, and whether a lent output
// is short. Hands on how many steps the tree has.
fn judge_call(steps: usize, whole: bool, short: bool) -> Result<usize, Refused>
    ensures { accepted_of result ≡ judged (record { number = 0; position = 0; steps = steps }) whole short }
{
    if !whole {
        return Err(Refusal::InputLength.into());
    }
    if short {
        return Err(Refusal::OutputLength.into());
    }
    Ok(steps)
}

// Whether a lent output is short, for so many steps and by the lengths of log and trace.
fn too_short(steps: usize, log: usize, trace: usize) -> bool
    requires { (1 ≤ steps) × (steps ≤ most_steps) }
    ensures { result ≡ too_short steps log trace }
{
    log < RECORD * steps || trace < 2 * (steps - 1)
}

// Judges a record call whose lent log and trace have so many bytes: refusals 1 to 7 and 16, or how many steps the tree has.
pub fn judge_record(
    tree: &[u8],
    setup: Setup,
    events: &[u8],
    log: usize,
    trace: usize,
) -> Result<usize, Refused>
    ensures { accepted_of result ≡ record_judged setup.workers setup.policy tree.now events.now log trace }
{
    let steps = judge_start(tree, setup)?;
    let whole = buffers::whole_records(events, EVENT, MOST_EVENTS);
    judge_call(steps, whole, too_short(steps, log, trace))
}

// Judges a replay call whose lent list has so many bytes: refusals 1 to 7 and 16, or how many steps the tree has.
pub fn judge_replay(tree: &[u8], setup: Setup, trace: &[u8], list: usize) -> Result<usize, Refused>
    ensures { accepted_of result ≡ replay_judged setup.workers setup.policy tree.now trace.now list }
{
    let steps = judge_start(tree, setup)?;
    let whole = buffers::whole_records(trace, RECORD, MOST_STEALS);
    judge_call(steps, whole, list < RECORD * steps)
}

// Whether a lent list of events is short, for so many steps.
fn list_short(steps: usize, events: usize) -> bool
    requires { (1 ≤ steps) × (steps ≤ most_steps) }
    ensures { result ≡ list_short steps events }
{
    events < EVENT * (steps + (steps - 1) / 2)
}

// Judges a schedule call whose lent list has so many bytes: refusals 1, 16, 2 to 5 and 7, or how many steps the tree has.
pub fn judge_schedule(tree: &[u8], setup: Setup, events: usize) -> Result<usize, Refused>
    ensures { accepted_of result ≡ schedule_judged setup.workers setup.policy tree.now events }
{
    let steps = judge_start(tree, setup)?;
    judge_call(steps, true, list_short(steps, events))
}
