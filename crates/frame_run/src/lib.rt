// A run event by event as C sees it: answers are flat structs of numbers, and a slice is a pointer and a length. Every function
// takes any bytes and any numbers.
#![tactic(auto)]

ghost use Rattle.std.specs.Prelude.{◌≡◌};
ghost use Rattle.run_state.specs.Contract.{start_answer, event_answer, idle_answer};
ghost use Rattle.frame_answers.specs.Contract.{flat_start, flat_outcome, flat_event, flat_idle};

use frame_answers::{FrameEvent, FrameIdle, FrameOutcome, FrameStart};
use policy::Setup;
use run_state::RunState;

// Starts a run of a tree with a policy and a count of workers.
#[unsafe(no_mangle)]
pub extern "C" fn frame_start(tree: &[u8], policy: u8, workers: u8) -> FrameStart
    ensures { result ≡ flat_start (start_answer workers policy tree.now) }
{
    run_state::start::start(tree, Setup::of(policy, workers)).into()
}

// One event: with equal bytes that worker runs its step, with different ones the first steals from the second.
#[unsafe(no_mangle)]
pub extern "C" fn frame_event(state: RunState, tree: &[u8], first: u8, second: u8) -> FrameEvent
    ensures { result ≡ flat_event (event_answer state tree.now first second) }
{
    state.event(tree, first, second).into()
}

// One event on a state that the host lends: it is the next state then, and after a refusal it is as it was.
#[unsafe(no_mangle)]
pub extern "C" fn frame_event_in_place(
    state: &mut RunState,
    tree: &[u8],
    first: u8,
    second: u8,
) -> FrameOutcome
    ensures answers { let answer = event_answer state.old tree.now first second in
        result ≡ flat_outcome answer.outcome }
    ensures state { let answer = event_answer state.old tree.now first second in
        state.new ≡ answer.state }
{
    let answer = RunState::event(*state, tree, first, second);
    *state = answer.state;
    answer.outcome.into()
}

// Which workers are idle in a state.
#[unsafe(no_mangle)]
pub extern "C" fn frame_idle(state: RunState) -> FrameIdle
    ensures { result ≡ flat_idle (idle_answer state) }
{
    state.idle().into()
}
