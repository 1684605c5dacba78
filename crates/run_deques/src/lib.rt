// The deques of all workers, kept in one byte for each step (document 01, "Scheduling"): `place[j]` is NOT_RUN, or RUN, or the
// number of the worker in whose deque the step is that step j pushed when it ran. All stores to the places of a run are here:
// `push`, `pop` and `take`. A deque is in the order of its pushers, so its newest step is that of its highest pusher, its
// oldest that of its lowest. No links are kept: any bytes are safe to scan. Where a table of openers is lent, the newest step
// is found by it instead.
#![tactic(auto)]

ghost use Rattle.std.specs.Prelude.{◌≡◌, ◌≤◌, ◌<◌, length, set};
ghost use Rattle.rules.specs.Tree.{most_steps};
ghost use Rattle.tree.specs.Steps.{maybe_step};
ghost use Rattle.run_spec.specs.Deques.{newest_mark, oldest_mark, popped, robbed};
ghost use Rattle.run_spec.specs.Terms.{Climbs};

use tree::{MOST_STEPS, Step};
use tree_tables::wide;

// A step that has run, where the step that it pushed, if any, is in no deque any more.
pub const RUN: u8 = 16;

// A step that has not run.
pub const NOT_RUN: u8 = 17;

// The highest step with this mark, a worker's or NOT_RUN, among those from `low` to before `end`, by a walk backwards.
pub fn scan(place: &[u8; MOST_STEPS], mark: u8, low: Step, end: Step) -> Option<Step>
    requires { end.0 ≤ most_steps }
    ensures { result ≡ maybe_step (newest_mark place.now mark low.0 end.0) }
{
    for j in (low.0..end.0).rev() {
        if place[j] == mark {
            return Some(Step(j));
        }
    }
    None
}

// The highest step marked with the worker among those from `low` to before `end`, from opener to opener: no step between is
// marked with a worker that holds step `end`.
fn climb(
    openers: &[u16],
    place: &[u8; MOST_STEPS],
    worker: u8,
    low: Step,
    end: Step,
) -> Option<Step>
    requires { (end.0 < most_steps) × (end.0 < length openers.now) × Climbs openers.now place.now worker low.0 end.0 }
    ensures { result ≡ maybe_step (newest_mark place.now worker low.0 end.0) }
{
    let from = low.0;
    let mut j = end.0;
    while from < j {
        j = wide(openers[j]);
        if j < from {
            return None;
        }
        if place[j] == worker {
            return Some(Step(j));
        }
    }
    None
}

// The highest step marked with the worker among those from `low` to before `end`: by the openers where their table has step
// `end`, else by a scan.
pub fn newest(
    openers: &[u16],
    place: &[u8; MOST_STEPS],
    worker: u8,
    low: Step,
    end: Step,
) -> Option<Step>
    requires { (end.0 < most_steps) × (end.0 < length openers.now → Climbs openers.now place.now worker low.0 end.0) }
    ensures { result ≡ maybe_step (newest_mark place.now worker low.0 end.0) }
{
    let i = end.0;
    if i < openers.len() {
        return climb(openers, place, worker, low, end);
    }
    scan(place, worker, low, end)
}

// The lowest step marked with the worker among those from `low` to before `end`, by a scan.
pub fn oldest(place: &[u8; MOST_STEPS], worker: u8, low: Step, end: usize) -> Option<Step>
    requires { end ≤ most_steps }
    ensures { result ≡ maybe_step (oldest_mark place.now worker low.0 end) }
{
    for j in low.0..end {
        if place[j] == worker {
            return Some(Step(j));
        }
    }
    None
}

// A worker runs an opening step, and the step that it pushes is the newest of the worker's deque.
pub fn push(place: &mut [u8; MOST_STEPS], worker: u8, step: Step)
    requires { step.0 < most_steps }
    ensures { place.new ≡ set place.old step.0 worker }
{
    let i = step.0;
    place[i] = worker;
}

// A worker runs an end: the step has run, and the newest step of the worker's deque leaves it. Gives that step's pusher.
pub fn pop(
    openers: &[u16],
    place: &mut [u8; MOST_STEPS],
    worker: u8,
    low: Step,
    step: Step,
) -> Option<Step>
    requires { let i = step.0 in
        (i < most_steps) × (i < length openers.now → Climbs openers.now place.old worker low.0 i) }
    ensures gives { result ≡ maybe_step (newest_mark place.old worker low.0 step.0) }
    ensures marks { place.new ≡ popped place.old worker low.0 step.0 }
{
    let i = step.0;
    match newest(openers, place, worker, low, step) {
        Some(q) => {
            let p = q.0;
            place[i] = RUN;
            place[p] = RUN;
            Some(q)
        }
        None => {
            place[i] = RUN;
            None
        }
    }
}

// A thief takes the oldest step of the victim's deque, among the steps pushed by those from `low` to before `end`. Gives that
// step's pusher.
pub fn take(place: &mut [u8; MOST_STEPS], victim: u8, low: Step, end: usize) -> Option<Step>
    requires { end ≤ most_steps }
    ensures gives { result ≡ maybe_step (oldest_mark place.old victim low.0 end) }
    ensures marks { place.new ≡ robbed place.old victim low.0 end }
{
    match oldest(place, victim, low, end) {
        Some(q) => {
            let p = q.0;
            place[p] = RUN;
            Some(q)
        }
        None => None,
    }
}
