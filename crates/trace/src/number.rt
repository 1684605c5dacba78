// What the number of a trace record counts (document 01, "Trace, log, run list"): work-first the children that a task has opened before
// the stolen step, which is its ordinal; help-first all steps before it, which is its serial number. This module alone turns one into
// the other's bytes and back.
ghost use Rattle.std.specs.Prelude.{◌≡◌};
ghost use Rattle.trace.specs.Contract.{number_by, number_value};
ghost use Rattle.trace.specs.Terms.{ordinal_in};

use super::RecordNumber;
use policy::WORK_FIRST;
use tree::{Ordinal, Step};

// The number of a trace record by the policy: an ordinal or a serial number.
#[derive(Clone, Copy)]
pub enum TraceNumber {
    ByOrdinal(Ordinal),
    BySerial(Step),
}

// The trace number of a stolen step, by its ordinal or its serial number.
pub fn trace_number(policy: u8, ordinal: Ordinal, step: Step) -> TraceNumber
    ensures { result ≡ number_by policy ordinal.0 step.0 }
{
    if policy == WORK_FIRST {
        return TraceNumber::ByOrdinal(ordinal);
    }
    TraceNumber::BySerial(step)
}

// The number as a trace record has it.
pub fn encode_number(number: TraceNumber) -> RecordNumber
    ensures { result.0 ≡ number_value number }
{
    match number {
        TraceNumber::ByOrdinal(ordinal) => RecordNumber(ordinal.0),
        TraceNumber::BySerial(step) => RecordNumber(step.0),
    }
}

// What a trace record's number is under the policy.
pub fn decode_number(policy: u8, number: RecordNumber) -> TraceNumber
    ensures { result ≡ number_by policy number.0 number.0 }
{
    let n = number.0;
    trace_number(policy, Ordinal(n), Step(n))
}

// The ordinal that a trace number is, 0 where it is a serial number.
pub fn ordinal_in(number: TraceNumber) -> Ordinal
    ensures { result.0 ≡ ordinal_in number }
{
    match number {
        TraceNumber::ByOrdinal(ordinal) => ordinal,
        TraceNumber::BySerial(step) => Ordinal(0),
    }
}
