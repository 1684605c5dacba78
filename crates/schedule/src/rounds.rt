// "Go through the workers in rising order again and again until every step has run" (document 02, #102): a round is a turn of each
// worker, and there are rounds while a step has not run. Each round runs a step, so they end.
ghost use Rattle.std.specs.Prelude.{◌≡◌, ◌*◌, ◌≤◌, length};
ghost use Rattle.rules.specs.Tree.{kinds};
ghost use Rattle.rules.specs.Calls.{start_verdict};
ghost use Rattle.rules_schedule.specs.Schedules.{made, most_made};
ghost use Rattle.tree_tables.specs.Terms.{Ends, Openers};
ghost use Rattle.schedule_turn.specs.Terms.{arrays_of, Standing};
ghost use Rattle.schedule.specs.Terms.{ListWritten, FirstTurns};

use policy::{Setup, WORKERS};
use run_deques::NOT_RUN;
use run_spec::NO_STEP;
use schedule_turn::Turned;
use tree::MOST_STEPS;
use tree_tables::wide;

// A turn of each worker, in rising order.
fn round(
    tree: &[u8],
    ends: &[u16],
    openers: &[u16],
    place: &mut [u8; MOST_STEPS],
    held: &mut [u16; WORKERS],
    phase: &mut [u16; WORKERS],
    low: &mut [u16; WORKERS],
    base: &mut [u16; WORKERS],
    sizes: &mut [u16; WORKERS],
    awaited: &mut [u16; WORKERS],
    events: &mut [u8],
    setup: Setup,
    before: Turned,
) -> Turned
    requires ends { let ks = kinds tree.now in (length ends.now ≡ length ks) × Ends ks ends.now (length ends.now) }
    requires openers { let ks = kinds tree.now in (length openers.now ≡ length ks) × Openers ks openers.now (length openers.now) }
    requires standing { Standing setup tree.now
        (arrays_of place.old held.old phase.old low.old base.old sizes.old awaited.old events.old setup before) }
    ensures { let start =
        arrays_of place.old held.old phase.old low.old base.old
        sizes.old awaited.old events.old setup before in
        let end =
        arrays_of place.new held.new phase.new low.new base.new
        sizes.new awaited.new events.new setup result in
        FirstTurns setup tree.now setup.workers start end }
{
    let mut turned = before;
    for worker in 0..setup.workers {
        turned = schedule_turn::turn(
            tree,
            ends,
            openers,
            place,
            held,
            phase,
            low,
            base,
            sizes,
            awaited,
            events,
            setup,
            worker as u8,
            turned,
        );
    }
    turned
}

// Makes the list with the tree's tables, on arrays of a run of its own. Answers how many events it has.
pub fn make_events(
    tree: &[u8],
    ends: &[u16],
    openers: &[u16],
    setup: Setup,
    seed: u32,
    events: &mut [u8],
) -> usize
    requires ends { let ks = kinds tree.now in (length ends.now ≡ length ks) × Ends ks ends.now (length ends.now) }
    requires openers { let ks = kinds tree.now in (length openers.now ≡ length ks) × Openers ks openers.now (length openers.now) }
    requires accepted { (start_verdict setup.workers setup.policy tree.now).number ≡ 0 }
    requires events_room { 2 * most_made (length (kinds tree.now)) ≤ length events.old }
    ensures { let list = made setup.workers setup.policy (kinds tree.now) seed in
        ListWritten list events.old result events.new }
{
    let n = tree::steps(tree);
    let mut place: [u8; MOST_STEPS] = [NOT_RUN; MOST_STEPS];
    let mut held: [u16; WORKERS] = [NO_STEP; WORKERS];
    held[0] = 0;
    let mut phase: [u16; WORKERS] = [0; WORKERS];
    let mut low: [u16; WORKERS] = [0; WORKERS];
    let mut base: [u16; WORKERS] = [0; WORKERS];
    let mut sizes: [u16; WORKERS] = [0; WORKERS];
    let mut awaited: [u16; WORKERS] = [NO_STEP; WORKERS];
    let mut turned = Turned {
        seed,
        steals: 0,
        runs: 0,
    };
    while turned.runs < n {
        turned = round(
            tree,
            ends,
            openers,
            &mut place,
            &mut held,
            &mut phase,
            &mut low,
            &mut base,
            &mut sizes,
            &mut awaited,
            events,
            setup,
            turned,
        );
    }
    turned.runs + wide(turned.steals)
}
