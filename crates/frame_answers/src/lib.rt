// The library's answers as C's flat structs of numbers: each `from` takes an answer by value and writes its parts into the fields of a
// struct. Most wrong answers of a function for C are of a field, so this is apart from the calls, which are dear to prove.
#![tactic(auto)]

ghost use Rattle.std.specs.Prelude.{◌≡◌};
ghost use Rattle.run_spec.specs.Outcomes.{outcome_of};
ghost use Rattle.run_state.specs.Contract.{zeros, started_of, answered};
ghost use Rattle.record.specs.Contract.{answers_of as recorded_of};
ghost use Rattle.replay.specs.Contract.{answers_of as replayed_of};
ghost use Rattle.schedule.specs.Contract.{answers_of as scheduled_of};
ghost use Rattle.frame_answers.specs.Contract.{flat_start, flat_outcome, flat_event, flat_idle, flat_record, flat_replay};
ghost use Rattle.frame_answers.specs.Contract.{flat_schedule};

use loads::Totals;
use policy::WORKERS;
use record::Recorded;
use refusals::{Refusal, Refused};
use replay::Replayed;
use run_spec::Done;
use run_state::{Answer, Idle, RunState};
use tree::{CLASSES, MOST_STEPS};

// A start's refusal and position, or the first state. The state beside a refusal is all 0.
#[repr(C)]
#[derive(Clone, Copy)]
pub struct FrameStart {
    pub number: usize,
    pub position: usize,
    pub state: RunState,
}

// The state beside a refusal.
fn no_state() -> RunState
    ensures { result ≡ zeros }
{
    RunState {
        place: [0; MOST_STEPS],
        policy: 0,
        held: [0; WORKERS],
        phase: [0; WORKERS],
        low: [0; WORKERS],
        base: [0; WORKERS],
        steals: 0,
        workers: 0,
    }
}

impl From<Result<RunState, Refused>> for FrameStart {
    ghost from_gives = { λ r e. e ≡ flat_start (started_of r) };

    fn from(started: Result<RunState, Refused>) -> FrameStart {
        match started {
            Ok(state) => FrameStart {
                number: 0,
                position: 0,
                state,
            },
            Err(refused) => FrameStart {
                number: refused.refusal.number() as usize,
                position: refused.position,
                state: no_state(),
            },
        }
    }
}

// An event's refusal and position, which is always 0, or what it did: `what` is 1 for a run, of `step` in `phase`, and 2 for a
// steal, whose trace record has `trace`. What is not answered is 0.
#[repr(C)]
#[derive(Clone, Copy)]
pub struct FrameOutcome {
    pub number: usize,
    pub position: usize,
    pub what: usize,
    pub phase: usize,
    pub step: usize,
    pub trace: usize,
}

impl From<Result<Done, Refusal>> for FrameOutcome {
    ghost from_gives = { λ r e. e ≡ flat_outcome (outcome_of r) };

    fn from(outcome: Result<Done, Refusal>) -> FrameOutcome {
        match outcome {
            Ok(Done::Ran { phase, step }) => FrameOutcome {
                number: 0,
                position: 0,
                what: 1,
                phase: phase.0,
                step: step.0,
                trace: 0,
            },
            Ok(Done::Stole(number)) => FrameOutcome {
                number: 0,
                position: 0,
                what: 2,
                phase: 0,
                step: 0,
                trace: trace::number::encode_number(number).0,
            },
            Err(refusal) => FrameOutcome {
                number: refusal.number() as usize,
                position: 0,
                what: 0,
                phase: 0,
                step: 0,
                trace: 0,
            },
        }
    }
}

// An event's outcome with the next state, which after a refusal is the very state given.
#[repr(C)]
#[derive(Clone, Copy)]
pub struct FrameEvent {
    pub outcome: FrameOutcome,
    pub state: RunState,
}

impl From<Answer> for FrameEvent {
    ghost from_gives = { λ a e. e ≡ flat_event (answered a) };

    fn from(answer: Answer) -> FrameEvent {
        let state = answer.state;
        FrameEvent {
            outcome: answer.outcome.into(),
            state,
        }
    }
}

// The idle workers: worker w is bit w of `set`; how many; the lowest, 16 for none.
#[repr(C)]
#[derive(Clone, Copy)]
pub struct FrameIdle {
    pub set: usize,
    pub count: usize,
    pub lowest: usize,
}

impl From<Idle> for FrameIdle {
    ghost from_gives = { λ i e. e ≡ flat_idle i };

    fn from(idle: Idle) -> FrameIdle {
        FrameIdle {
            set: idle.set as usize,
            count: idle.count as usize,
            lowest: idle.lowest as usize,
        }
    }
}

// A recording's refusal and position, or the counts of log and trace records, whether every step has run (1 or 0), each
// worker's load, the heaviest worker and each class's load. What is not answered is 0.
#[repr(C)]
#[derive(Clone, Copy)]
pub struct FrameRecord {
    pub number: usize,
    pub position: usize,
    pub logs: usize,
    pub steals: usize,
    pub finished: usize,
    pub loads: [u64; WORKERS],
    pub heaviest: usize,
    pub class_loads: [u64; CLASSES],
}

impl From<Result<Recorded, Refused>> for FrameRecord {
    ghost from_gives = { λ r e. e ≡ flat_record (recorded_of r) };

    fn from(recorded: Result<Recorded, Refused>) -> FrameRecord {
        match recorded {
            Ok(recorded) => {
                let loads = recorded.totals.loads;
                let class_loads = recorded.totals.classes;
                FrameRecord {
                    number: 0,
                    position: 0,
                    logs: recorded.logs,
                    steals: recorded.steals,
                    finished: recorded.finished as usize,
                    loads,
                    heaviest: recorded.totals.heaviest,
                    class_loads,
                }
            }
            Err(refused) => {
                let none = Totals::none();
                let loads = none.loads;
                let class_loads = none.classes;
                FrameRecord {
                    number: refused.refusal.number() as usize,
                    position: refused.position,
                    logs: 0,
                    steals: 0,
                    finished: 0,
                    loads,
                    heaviest: none.heaviest,
                    class_loads,
                }
            }
        }
    }
}

// A replay's refusal and position, or the count of phases, each worker's load, the heaviest worker and each class's load. What is
// not answered is 0.
#[repr(C)]
#[derive(Clone, Copy)]
pub struct FrameReplay {
    pub number: usize,
    pub position: usize,
    pub phases: usize,
    pub loads: [u64; WORKERS],
    pub heaviest: usize,
    pub class_loads: [u64; CLASSES],
}

impl From<Result<Replayed, Refused>> for FrameReplay {
    ghost from_gives = { λ r e. e ≡ flat_replay (replayed_of r) };

    fn from(replayed: Result<Replayed, Refused>) -> FrameReplay {
        match replayed {
            Ok(replayed) => {
                let loads = replayed.loads;
                let class_loads = replayed.classes;
                FrameReplay {
                    number: 0,
                    position: 0,
                    phases: replayed.phases,
                    loads,
                    heaviest: replayed.heaviest,
                    class_loads,
                }
            }
            Err(refused) => {
                let none = Totals::none();
                let loads = none.loads;
                let class_loads = none.classes;
                FrameReplay {
                    number: refused.refusal.number() as usize,
                    position: refused.position,
                    phases: 0,
                    loads,
                    heaviest: none.heaviest,
                    class_loads,
                }
            }
        }
    }
}

// A schedule's refusal and position, or how many events its list has. What is not answered is 0.
#[repr(C)]
#[derive(Clone, Copy)]
pub struct FrameSchedule {
    pub number: usize,
    pub position: usize,
    pub events: usize,
}

impl From<Result<usize, Refused>> for FrameSchedule {
    ghost from_gives = { λ r e. e ≡ flat_schedule (scheduled_of r) };

    fn from(scheduled: Result<usize, Refused>) -> FrameSchedule {
        match scheduled {
            Ok(events) => FrameSchedule {
                number: 0,
                position: 0,
                events,
            },
            Err(refused) => FrameSchedule {
                number: refused.refusal.number() as usize,
                position: refused.position,
                events: 0,
            },
        }
    }
}
