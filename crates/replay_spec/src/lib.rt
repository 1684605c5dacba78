// One trace record and one phase in the tables of replay (document 01, "Trace, log, run list"): what reading a steal, beginning a
// phase and running a phase alone come to, as definitions and laws in `specs`, and the types that they speak of. The functions
// are in the crates above.
#![tactic(auto)]

use tree::{Ordinal, Phase, Step};

// The latest phase of a worker that has had none.
pub const NO_PHASE: u16 = 65535;

// The label of a step that has none.
pub const FREE: u16 = 65535;

// A phase that begins: its worker `thief` steals `step` from phase `from`. The step's ordinal is that of a work-first trace; from
// a help-first one it is 0, and not asked for.
#[derive(Clone, Copy)]
pub struct Begun {
    pub phase: Phase,
    pub from: Phase,
    pub thief: usize,
    pub step: Step,
    pub ordinal: Ordinal,
}
