// The records of a trace, a log and a run list (document 01, "Trace, log, run list"): each is four bytes. What the number of a trace
// record counts only the policy says: that is in module `number`.
#![tactic(auto)]

pub mod number;

ghost use Rattle.std.specs.Prelude.{◌≡◌, ◌+◌, ◌*◌, ◌/◌, ◌%◌, ◌≤◌, ◌<◌, length};
ghost use Rattle.buffers.specs.Terms.{record_put};
ghost use Rattle.trace.specs.Terms.{RecordAt};

use buffers::RECORD;
use tree::{Phase, Step};

// The number of a trace record, as its bytes have it: neither an ordinal nor a serial number before the policy is asked.
#[derive(Clone, Copy)]
pub struct RecordNumber(pub usize);

// What a trace record says.
#[derive(Clone, Copy)]
pub struct TraceRecord {
    pub thief: u8,
    pub victim: u8,
    pub number: RecordNumber,
}

// Reads trace record k.
pub fn record_at(trace: &[u8], k: usize) -> TraceRecord
    requires { k < length trace.now / 4 }
    ensures { RecordAt trace.now k result.thief result.victim result.number.0 }
{
    let at = RECORD * k;
    let number = buffers::two_bytes(trace[at + 2], trace[at + 3]);
    TraceRecord {
        thief: trace[at],
        victim: trace[at + 1],
        number: RecordNumber(number as usize),
    }
}

// Stores trace record k.
pub fn put_steal(trace: &mut [u8], k: usize, steal: TraceRecord)
    requires { 4 * k + 4 ≤ length trace.old }
    ensures { trace.new ≡ record_put trace.old k steal.thief steal.victim steal.number.0 }
{
    buffers::put_record(trace, k, steal.thief, steal.victim, steal.number.0);
}

// Stores record k of a log or a run list: a step run in a phase.
pub fn put_entry(entries: &mut [u8], k: usize, phase: Phase, step: Step)
    requires { 4 * k + 4 ≤ length entries.old }
    ensures { let low = phase.0 % 256 in
        let high = phase.0 / 256 % 256 in
        entries.new ≡ record_put entries.old k low high step.0 }
{
    let p = phase.0;
    buffers::put_record(entries, k, (p % 256) as u8, (p / 256 % 256) as u8, step.0);
}
