// A run by value, event by event (document 01, "Scheduling"). `start::start` judges policy, worker count and tree and gives the
// first state; `run`, `steal` and `event` take a state and hand back the next with the event's outcome; `idle` tells the idle workers.
// Nothing is kept elsewhere: a host may copy a state, keep it or go back to it. Any state and any bytes are safe: a held step
// beyond the tree is none, a tree with more records than a tree may have is refused with 2, and a count above 16 is 16.
#![tactic(auto)]

pub mod start;

ghost use Rattle.std.specs.Prelude.{◌≡◌};
ghost use Rattle.policy.specs.Contract.{worker_limit};
ghost use Rattle.run_spec.specs.Idle.{idle_bits};
ghost use Rattle.run_state.specs.Contract.{answered, run_answer, steal_answer, event_answer, idle_answer};

use policy::{Setup, WORKERS};
use refusals::Refusal;
use run_spec::Done;
use tree::MOST_STEPS;
use tree_tables::wide;

// The state of a run.
#[repr(C)]
#[derive(Clone, Copy)]
pub struct RunState {
    // for each step NOT_RUN, RUN, or the worker in whose deque the step is that it pushed
    pub place: [u8; MOST_STEPS],
    pub policy: u8,
    // for each worker the step that it holds, or NO_STEP
    pub held: [u16; WORKERS],
    // for each worker its latest phase
    pub phase: [u16; WORKERS],
    // for each worker a step below which no step is marked with it
    pub low: [u16; WORKERS],
    // for each worker, work-first, the ordinal of the step in `low`
    pub base: [u16; WORKERS],
    // how many steals there were
    pub steals: u16,
    // how many workers the run has; of two bytes, so that no byte of a state is padding
    pub workers: u16,
}

// An event's outcome with the next state, which beside a refusal is the very state given.
#[derive(Clone, Copy)]
pub struct Answer {
    pub outcome: Result<Done, Refusal>,
    pub state: RunState,
}

// The idle workers as a set, how many they are and the lowest, with the state.
#[derive(Clone, Copy)]
pub struct Idle {
    pub set: u16,
    pub count: u32,
    pub lowest: u32,
    pub state: RunState,
}

// The workers that hold no step as a set, of a run of so many workers: worker w is bit w.
fn idle_set(held: &[u16; WORKERS], workers: u16) -> u16
    ensures { result ≡ idle_bits held.now 0 (worker_limit workers) }
{
    let mut set: u16 = 0;
    for w in (0..policy::limit(workers)).rev() {
        set *= 2;
        if MOST_STEPS <= wide(held[w]) {
            set += 1;
        }
    }
    set
}

impl RunState {
    // What the run was set up with.
    fn setup(&self) -> Setup
        ensures { result ≡ record { policy = self.now.policy; workers = self.now.workers } }
    {
        Setup {
            policy: self.policy,
            workers: self.workers,
        }
    }

    // A worker runs its step.
    pub fn run(self, tree: &[u8], worker: u8) -> Answer
        ensures { answered result ≡ run_answer self tree.now worker }
    {
        let mut state = self;
        let setup = state.setup();
        let outcome = run_event::run_on(
            tree,
            &[],
            &[],
            &mut state.place,
            &mut state.held,
            &state.phase,
            &state.low,
            setup,
            worker,
        );
        Answer { outcome, state }
    }

    // The thief takes the oldest step of the victim's deque.
    pub fn steal(self, tree: &[u8], thief: u8, victim: u8) -> Answer
        ensures { answered result ≡ steal_answer self tree.now thief victim }
    {
        let mut state = self;
        let setup = state.setup();
        let outcome = run_event::steal_on(
            tree,
            &[],
            &mut state.place,
            &mut state.held,
            &mut state.phase,
            &mut state.low,
            &mut state.base,
            &mut state.steals,
            setup,
            thief,
            victim,
        );
        Answer { outcome, state }
    }

    // An event of two bytes: equal, that worker runs its step; different, the first steals from the second.
    pub fn event(self, tree: &[u8], first: u8, second: u8) -> Answer
        ensures { answered result ≡ event_answer self tree.now first second }
    {
        if first == second {
            return self.run(tree, first);
        }
        self.steal(tree, first, second)
    }

    // The idle workers: those of the run that hold no step. One that waits is not idle.
    pub fn idle(self) -> Idle
        ensures { result ≡ idle_answer self }
    {
        // A copy of these few, so that the state itself is handed on where it stands.
        let held = self.held;
        let set = idle_set(&held, self.workers);
        Idle {
            set,
            count: u16::count_ones(set),
            lowest: u16::trailing_zeros(set),
            state: self,
        }
    }
}
