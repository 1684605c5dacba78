// One turn of the schedule maker (document 02, #102), on the arrays of a run and on the list that is being made: a worker whose step
// may run runs it, an idle one draws a victim. Two tables beside the run keep nearly every turn that passes from looking through it: the
// length of each deque, and for each worker the step that it was last seen to wait for.
#![tactic(auto)]

mod draw;
mod waiting;

ghost use Rattle.std.specs.Prelude.{◌≡◌, ◌<◌, length, ◌≢◌, slice_index};
ghost use Rattle.rules.specs.Tree.{kinds};
ghost use Rattle.tree_tables.specs.Terms.{Ends, Openers};
ghost use Rattle.run_spec.specs.Running.{no_step};
ghost use Rattle.schedule_turn.specs.Terms.{arrays_of, size_after, Standing, Turns};

use policy::{Setup, WORKERS};
use run_spec::{Done, NO_STEP};
use tree::{END, MOST_STEPS, Step, kind};
use tree_tables::wide;

// What the turns so far have come to, beside the arrays: the seed, and how many steals and runs the list has.
#[derive(Clone, Copy)]
pub struct Turned {
    pub seed: u32,
    pub steals: u16,
    pub runs: usize,
}

// How long a worker's deque is once it has run a step: an end takes one, where there is one, and an opening step pushes one.
#[tactic(auto, unfolding(crate::specs::Terms::size_after, rules::specs::Tree::is_end))]
fn size_after(tree: &[u8], step: Step, size: u16) -> u16
    requires { (step.0 < length (kinds tree.now)) × (size < 65535) }
    ensures { result ≡ size_after (kinds tree.now) step.0 size }
{
    if kind(tree, step) != END {
        return size + 1;
    }
    size.saturating_sub(1)
}

// A worker that holds a step runs it, or waits and passes.
fn run_turn(
    tree: &[u8],
    ends: &[u16],
    openers: &[u16],
    place: &mut [u8; MOST_STEPS],
    held: &mut [u16; WORKERS],
    phase: &[u16; WORKERS],
    low: &[u16; WORKERS],
    base: &[u16; WORKERS],
    sizes: &mut [u16; WORKERS],
    awaited: &mut [u16; WORKERS],
    events: &mut [u8],
    setup: Setup,
    worker: u8,
    before: Turned,
) -> Turned
    requires ends { let ks = kinds tree.now in (length ends.now ≡ length ks) × Ends ks ends.now (length ends.now) }
    requires openers { let ks = kinds tree.now in (length openers.now ≡ length ks) × Openers ks openers.now (length openers.now) }
    requires worker { (worker < setup.workers) × (slice_index held.old worker ≢ no_step) }
    requires standing { Standing setup tree.now
        (arrays_of place.old held.old phase.now low.now base.now sizes.old awaited.old events.old setup before) }
    ensures { let start =
        arrays_of place.old held.old phase.now low.now base.now
        sizes.old awaited.old events.old setup before in
        let end =
        arrays_of place.new held.new phase.now low.now base.now
        sizes.new awaited.new events.new setup result in
        Turns setup tree.now worker start end }
{
    let seed = before.seed;
    let steals = before.steals;
    let runs = before.runs;
    let w = worker as usize;
    let seen = Step(wide(awaited[w]));
    if waiting::unrun_still(place, seen) {
        return Turned { seed, steals, runs };
    }
    // It has run: what the worker waits for now, if it does, stands below it.
    let step = Step(wide(held[w]));
    if let Some(below) = waiting::awaited_before(tree, openers, place, step, seen) {
        awaited[w] = below.0 as u16;
        return Turned { seed, steals, runs };
    }
    awaited[w] = NO_STEP;
    match run_event::run_on(tree, ends, openers, place, held, phase, low, setup, worker) {
        Ok(Done::Ran { phase, step }) => {
            sizes[w] = size_after(tree, step, sizes[w]);
            buffers::put_event(events, runs + wide(steals), worker, worker);
            Turned {
                seed,
                steals,
                runs: runs + 1,
            }
        }
        // A run never steals.
        Ok(Done::Stole(number)) => Turned { seed, steals, runs },
        // It waits: what for is looked for at its next turn, from the end of the finish child before its step.
        Err(refusal) => {
            awaited[w] = held[w] - 1;
            Turned { seed, steals, runs }
        }
    }
}

// An idle worker draws a victim and steals, or passes.
fn steal_turn(
    tree: &[u8],
    ends: &[u16],
    place: &mut [u8; MOST_STEPS],
    held: &mut [u16; WORKERS],
    phase: &mut [u16; WORKERS],
    low: &mut [u16; WORKERS],
    base: &mut [u16; WORKERS],
    sizes: &mut [u16; WORKERS],
    awaited: &[u16; WORKERS],
    events: &mut [u8],
    setup: Setup,
    worker: u8,
    before: Turned,
) -> Turned
    requires ends { let ks = kinds tree.now in Ends ks ends.now (length ends.now) }
    requires worker { (worker < setup.workers) × (slice_index held.old worker ≡ no_step) }
    requires standing { Standing setup tree.now
        (arrays_of place.old held.old phase.old low.old base.old sizes.old awaited.now events.old setup before) }
    ensures { let start =
        arrays_of place.old held.old phase.old low.old base.old
        sizes.old awaited.now events.old setup before in
        let end =
        arrays_of place.new held.new phase.new low.new base.new
        sizes.new awaited.now events.new setup result in
        Turns setup tree.now worker start end }
{
    let mut steals = before.steals;
    let runs = before.runs;
    let seed = draw::next_seed(before.seed);
    let victim = draw::named(seed);
    let v = victim as usize;
    // It is another worker, and below the count: an idle worker's own deque, and that of nobody, has no step.
    let size = sizes[v];
    if size == 0 {
        return Turned { seed, steals, runs };
    }
    // The victim has a step, so the rules accept the steal.
    let _ = run_event::steal_on(
        tree,
        ends,
        place,
        held,
        phase,
        low,
        base,
        &mut steals,
        setup,
        worker,
        victim,
    );
    sizes[v] = size - 1;
    buffers::put_event(events, runs + wide(before.steals), worker, victim);
    Turned { seed, steals, runs }
}

// A worker's turn.
pub fn turn(
    tree: &[u8],
    ends: &[u16],
    openers: &[u16],
    place: &mut [u8; MOST_STEPS],
    held: &mut [u16; WORKERS],
    phase: &mut [u16; WORKERS],
    low: &mut [u16; WORKERS],
    base: &mut [u16; WORKERS],
    sizes: &mut [u16; WORKERS],
    awaited: &mut [u16; WORKERS],
    events: &mut [u8],
    setup: Setup,
    worker: u8,
    before: Turned,
) -> Turned
    requires ends { let ks = kinds tree.now in (length ends.now ≡ length ks) × Ends ks ends.now (length ends.now) }
    requires openers { let ks = kinds tree.now in (length openers.now ≡ length ks) × Openers ks openers.now (length openers.now) }
    requires worker { worker < setup.workers }
    requires standing { Standing setup tree.now
        (arrays_of place.old held.old phase.old low.old base.old sizes.old awaited.old events.old setup before) }
    ensures { let start =
        arrays_of place.old held.old phase.old low.old base.old
        sizes.old awaited.old events.old setup before in
        let end =
        arrays_of place.new held.new phase.new low.new base.new
        sizes.new awaited.new events.new setup result in
        Turns setup tree.now worker start end }
{
    if held[worker as usize] == NO_STEP {
        return steal_turn(
            tree, ends, place, held, phase, low, base, sizes, awaited, events, setup, worker,
            before,
        );
    }
    run_turn(
        tree, ends, openers, place, held, phase, low, base, sizes, awaited, events, setup, worker,
        before,
    )
}
