// The start of a run (document 01, "Scheduling"): policy, worker count and tree are judged, and a run that is not refused has its
// first state.
ghost use Rattle.std.specs.Prelude.{◌≡◌};
ghost use Rattle.run_spec.specs.Moves.{fresh};
ghost use Rattle.run_state.specs.Contract.{state_of, started_of, start_answer};

use super::RunState;
use policy::{Setup, WORKERS};
use refusals::Refused;
use run_deques::NOT_RUN;
use run_spec::NO_STEP;
use tree::MOST_STEPS;

// Worker 0 holds step 0 and that begins phase 0; the others are idle.
#[tactic(auto, unfolding(run_spec::specs::Moves::fresh))]
fn first_state(setup: Setup) -> RunState
    ensures { result ≡ state_of (fresh setup) }
{
    let mut held = [NO_STEP; WORKERS];
    held[0] = 0;
    RunState {
        place: [NOT_RUN; MOST_STEPS],
        policy: setup.policy,
        held,
        phase: [0; WORKERS],
        low: [0; WORKERS],
        base: [0; WORKERS],
        steals: 0,
        workers: setup.workers,
    }
}

// Starts a run: refusals 1 to 5 and 16, or the first state.
pub fn start(tree: &[u8], setup: Setup) -> Result<RunState, Refused>
    ensures { started_of result ≡ start_answer setup.workers setup.policy tree.now }
{
    arguments::judge_start(tree, setup)?;
    Ok(first_state(setup))
}
