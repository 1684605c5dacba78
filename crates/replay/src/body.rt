// What an admitted replay comes to (document 01, "Trace, log, run list"): the trace is walked with the tree's tables, and the run
// list is written once every record is accepted, unless the caller is full (document 02, #106). The classes are charged with
// what the tree's steps weigh: the phases cover all of them (document 02, #103).
ghost use Rattle.std.specs.Prelude.{◌≡◌, replicate};
ghost use Rattle.rules.specs.Tree.{class_count};
ghost use Rattle.replay.specs.Body.Terms.{Admitted, Outcome};

use policy::{MOST_PHASES, Setup};
use refusals::{Refusal, Refused};
use replay_spec::FREE;
use replay_walk::Ended;
use tree::{CLASSES, MOST_STEPS};
use tree_tables::sums::SUMS;

// Walks the trace of a tree of n steps. The lent list is written where no record is refused, unless the caller is full.
pub fn run(
    tree: &[u8],
    setup: Setup,
    trace: &[u8],
    n: usize,
    list: &mut [u8],
    classes: &mut [u64; CLASSES],
    full: bool,
) -> Result<Ended, Refused>
    requires admitted { Admitted setup.workers setup.policy tree.now trace.now n list.old }
    requires zeroed { classes.old ≡ replicate class_count 0 }
    ensures { let ended = Outcome full setup.workers setup.policy tree.now trace.now list.old result in
        ended list.new classes.new }
{
    let mut ends: [u16; MOST_STEPS] = [0; MOST_STEPS];
    let mut openers: [u16; MOST_STEPS] = [0; MOST_STEPS];
    let mut sums: [u64; SUMS] = [0; SUMS];
    let mut labels: [u16; MOST_STEPS] = [FREE; MOST_STEPS];
    let mut firsts: [u16; MOST_PHASES] = [0; MOST_PHASES];
    tree_tables::fill(tree, &mut ends, &mut openers);
    tree_tables::sums::add_up(tree, &mut sums, classes);
    let walked = replay_walk::walk(
        tree,
        &ends[..n],
        &openers[..n],
        &sums,
        setup,
        trace,
        &mut labels[..n],
        &mut firsts,
    )?;
    if full {
        return Err(Refusal::Full.into());
    }
    replay_list::write_list(
        tree,
        &ends[..n],
        &labels[..n],
        &firsts,
        setup.policy,
        walked.phases,
        list,
    );
    Ok(walked)
}
