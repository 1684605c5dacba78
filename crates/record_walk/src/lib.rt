// The walk over a list of events: each goes through the same functions as a single event, on arrays of the walk's own and with the
// tree's tables, which the call has filled once. What it comes to is a refusal with its position, or the log, the trace and the loads.
#![tactic(auto)]

mod output;

ghost use Rattle.std.specs.Prelude.{◌≡◌, ◌+◌, ◌*◌, ◌/◌, ◌<◌, length, get_or};
ghost use Rattle.rules.specs.Tree.{most_steps, kinds, weights};
ghost use Rattle.rules.specs.Calls.{most_trace_records, start_verdict};
ghost use Rattle.tree_tables.specs.Terms.{Ends, Openers, Sums};
ghost use Rattle.record_walk.specs.Terms.{Walks};

use buffers::EVENT;
use policy::{Setup, WORKERS};
use refusals::Refused;
use run_deques::NOT_RUN;
use run_spec::{Done, Event, NO_STEP};
use tree::{MOST_STEPS, Step};
use tree_tables::wide;

// What the walk over the events comes to, where none is refused.
#[derive(Clone, Copy)]
pub struct Ended {
    pub logs: usize,
    pub steals: usize,
    pub loads: [u64; WORKERS],
}

// Event k of the list.
fn event_at(events: &[u8], k: usize) -> Event
    requires { k < length events.now / 2 }
    ensures { let bytes = events.now in
        result ≡ record { first = get_or bytes (2 * k) 0; second = get_or bytes (2 * k + 1) 0 } }
{
    Event {
        first: events[EVENT * k],
        second: events[EVENT * k + 1],
    }
}

// Runs the events from the start on, up to the first that is refused, with the tree's tables.
pub fn walk(
    tree: &[u8],
    ends: &[u16],
    openers: &[u16],
    sums: &[u64],
    setup: Setup,
    events: &[u8],
    log: &mut [u8],
    trace: &mut [u8],
) -> Result<Ended, Refused>
    requires accepted { (start_verdict setup.workers setup.policy tree.now).number ≡ 0 }
    requires ends { let ks = kinds tree.now in (length ends.now ≡ length ks) × Ends ks ends.now (length ends.now) }
    requires openers { let ks = kinds tree.now in (length openers.now ≡ length ks) × Openers ks openers.now (length openers.now) }
    requires sums { let n = length (kinds tree.now) in (n < length sums.now) × Sums (weights tree.now) sums.now n }
    requires rooms { (length log.old ≡ 4 * most_steps) × (length trace.old ≡ 4 * most_trace_records) }
    ensures { Walks setup.workers setup.policy tree.now events.now result log.new trace.new }
{
    let n = tree::steps(tree);
    let mut place: [u8; MOST_STEPS] = [NOT_RUN; MOST_STEPS];
    let mut held: [u16; WORKERS] = [NO_STEP; WORKERS];
    held[0] = 0;
    let mut latest: [u16; WORKERS] = [0; WORKERS];
    let mut low: [u16; WORKERS] = [0; WORKERS];
    let mut base: [u16; WORKERS] = [0; WORKERS];
    let mut steals: u16 = 0;
    let mut loads: [u64; WORKERS] = [0; WORKERS];
    loads[0] = sums[n];
    let mut logs = 0;
    for at in 0..events.len() / EVENT {
        let event = event_at(events, at);
        let before = wide(steals);
        let judged = run_event::event_on(
            tree,
            ends,
            openers,
            &mut place,
            &mut held,
            &mut latest,
            &mut low,
            &mut base,
            &mut steals,
            setup,
            event,
        );
        let done = match judged {
            Ok(done) => done,
            Err(refusal) => return Err(refusal.at(at)),
        };
        match done {
            Done::Ran { phase, step } => {
                trace::put_entry(log, logs, phase, step);
                logs += 1;
            }
            Done::Stole(number) => {
                let step = Step(wide(held[event.first as usize]));
                output::trace_steal(ends, sums, trace, &mut loads, before, event, step, number);
            }
        }
    }
    Ok(Ended {
        logs,
        steals: wide(steals),
        loads,
    })
}
