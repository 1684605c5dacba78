// What an admitted recording comes to (document 01, "Trace, log, run list"): the events are walked with the tree's tables, and log
// and trace, which are written to arrays of the call's own, are copied out once every event is accepted. The classes are charged with
// what the tree's steps weigh: the phases cover all of them (document 02, #103).
ghost use Rattle.std.specs.Prelude.{◌≡◌, ◌*◌, length, replicate};
ghost use Rattle.rules.specs.Tree.{most_steps, class_count, kinds, classes as classes_of, weights};
ghost use Rattle.rules.specs.Calls.{most_trace_records, start_verdict};
ghost use Rattle.tree_tables.specs.Terms.{classes_before};
ghost use Rattle.record_walk.specs.Terms.{Walks};
ghost use Rattle.record.specs.Body.Terms.{Admitted, Answered};

use buffers::RECORD;
use policy::{MOST_STEALS, Setup};
use record_walk::Ended;
use refusals::Refused;
use tree::{CLASSES, MOST_STEPS};
use tree_tables::sums::SUMS;

// Bytes of the longest log and of the longest trace.
const LOG_BYTES: usize = RECORD * MOST_STEPS;

const TRACE_BYTES: usize = RECORD * MOST_STEALS;

// Fills the tables of an accepted tree, charges the classes, and walks the events.
fn walk_events(
    tree: &[u8],
    setup: Setup,
    events: &[u8],
    log: &mut [u8],
    trace: &mut [u8],
    classes: &mut [u64; CLASSES],
) -> Result<Ended, Refused>
    requires accepted { (start_verdict setup.workers setup.policy tree.now).number ≡ 0 }
    requires rooms { (length log.old ≡ 4 * most_steps) × (length trace.old ≡ 4 * most_trace_records) }
    requires zeroed { classes.old ≡ replicate class_count 0 }
    ensures walks { Walks setup.workers setup.policy tree.now events.now result log.new trace.new }
    ensures classes { let file = tree.now in
        classes.new ≡ classes_before (classes_of file) (weights file) (length (kinds file)) }
{
    let n = tree::steps(tree);
    let mut ends: [u16; MOST_STEPS] = [0; MOST_STEPS];
    let mut openers: [u16; MOST_STEPS] = [0; MOST_STEPS];
    let mut sums: [u64; SUMS] = [0; SUMS];
    tree_tables::fill(tree, &mut ends, &mut openers);
    tree_tables::sums::add_up(tree, &mut sums, classes);
    record_walk::walk(
        tree,
        &ends[..n],
        &openers[..n],
        &sums,
        setup,
        events,
        log,
        trace,
    )
}

// Walks the events. The lent log and trace are written where no event is refused.
pub fn run(
    tree: &[u8],
    setup: Setup,
    events: &[u8],
    log: &mut [u8],
    trace: &mut [u8],
    classes: &mut [u64; CLASSES],
) -> Result<Ended, Refused>
    requires admitted { Admitted setup.workers setup.policy tree.now log.old trace.old }
    requires zeroed { classes.old ≡ replicate class_count 0 }
    ensures { Answered setup.workers setup.policy tree.now events.now log.old trace.old
        result log.new trace.new classes.new }
{
    let mut own_log: [u8; LOG_BYTES] = [0; LOG_BYTES];
    let mut own_trace: [u8; TRACE_BYTES] = [0; TRACE_BYTES];
    let walked = walk_events(tree, setup, events, &mut own_log, &mut own_trace, classes)?;
    buffers::copy_out(&own_log, RECORD * walked.logs, log);
    buffers::copy_out(&own_trace, RECORD * walked.steals, trace);
    Ok(walked)
}
