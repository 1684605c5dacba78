// The schedule maker (document 02, #102): from a tree, a policy, a count of workers and a seed a list of events, written where it is
// lent. Nothing is refused once the first event is written.
#![tactic(auto)]

pub mod rounds;

ghost use Rattle.std.specs.Prelude.{◌≡◌, ◌*◌, ◌≤◌, length};
ghost use Rattle.rules.specs.Tree.{kinds};
ghost use Rattle.rules.specs.Calls.{start_verdict};
ghost use Rattle.rules_schedule.specs.Schedules.{made, most_made, schedule_call};
ghost use Rattle.schedule.specs.Contract.{answers, answers_of};
ghost use Rattle.schedule.specs.Terms.{ListWritten};

use policy::Setup;
use refusals::Refused;
use tree::MOST_STEPS;

// Fills the tables of an accepted tree, and makes the list. Answers how many events it has.
fn make(tree: &[u8], setup: Setup, seed: u32, events: &mut [u8]) -> usize
    requires accepted { (start_verdict setup.workers setup.policy tree.now).number ≡ 0 }
    requires events_room { 2 * most_made (length (kinds tree.now)) ≤ length events.old }
    ensures { let list = made setup.workers setup.policy (kinds tree.now) seed in
        ListWritten list events.old result events.new }
{
    let n = tree::steps(tree);
    let mut ends: [u16; MOST_STEPS] = [0; MOST_STEPS];
    let mut openers: [u16; MOST_STEPS] = [0; MOST_STEPS];
    tree_tables::fill(tree, &mut ends, &mut openers);
    rounds::make_events(tree, &ends[..n], &openers[..n], setup, seed, events)
}

// Makes a list of events: refusals 1, 16, 2 to 5 and 7, or the list at the front of the lent one, and how many events it has.
#[tactic(auto, using(crate::specs::Laws::Results::refused_answers, crate::specs::Laws::Results::refused_stays))]
pub fn schedule(tree: &[u8], setup: Setup, seed: u32, events: &mut [u8]) -> Result<usize, Refused>
    ensures answers { let call = schedule_call setup.workers setup.policy tree.now seed events.old in
        answers_of result ≡ answers call }
    ensures events { let call = schedule_call setup.workers setup.policy tree.now seed events.old in
        events.new ≡ call.events }
{
    arguments::judge_schedule(tree, setup, events.len())?;
    Ok(make(tree, setup, seed, events))
}
