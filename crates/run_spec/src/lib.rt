// What one event of a run does to the fields of its state (document 01, "Scheduling"): its answer and what it leaves, as
// definitions and laws in `specs`, and the types that they speak of. It has no function: those of `run_deques`, `run_event` and
// `run_state` are proved to compute these definitions, and `run_refinement` proves that the definitions are the rules.
#![tactic(auto)]

use trace::number::TraceNumber;
use tree::{Ordinal, Phase, Step};

// What a state has for the held step of a worker that holds none.
pub const NO_STEP: u16 = 65535;

// An event's two bytes: equal, that worker runs its step; different, the first steals from the second.
#[derive(Clone, Copy)]
pub struct Event {
    pub first: u8,
    pub second: u8,
}

// A stolen step with the step that pushed it and, work-first, its ordinal.
#[derive(Clone, Copy)]
pub struct Stolen {
    pub pusher: Step,
    pub step: Step,
    pub ordinal: Ordinal,
}

// What an event did: the phase and the step that it ran, or the trace number of the step that it stole.
#[derive(Clone, Copy)]
pub enum Done {
    Ran { phase: Phase, step: Step },
    Stole(TraceNumber),
}
