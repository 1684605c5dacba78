// What a recording keeps of an accepted steal: its record goes to the trace, and its weight to the thief's load.
ghost use Rattle.std.specs.Prelude.{◌≡◌, ◌+◌, ◌*◌, ◌≤◌, ◌<◌, length};
ghost use Rattle.buffers.specs.Terms.{record_put};
ghost use Rattle.loads.specs.Terms.{weight_between, Movable, load_moved};
ghost use Rattle.rules.specs.Scheduling.{most_workers};
ghost use Rattle.trace.specs.Contract.{number_value};

use policy::WORKERS;
use run_spec::Event;
use trace::TraceRecord;
use trace::number::{TraceNumber, encode_number};
use tree::Step;

// Trace record k: a step stolen. All from that step to the end of its task goes to the thief's load.
pub fn trace_steal(
    ends: &[u16],
    sums: &[u64],
    trace: &mut [u8],
    loads: &mut [u64; WORKERS],
    k: usize,
    event: Event,
    step: Step,
    number: TraceNumber,
)
    requires room { 4 * k + 4 ≤ length trace.old }
    requires workers { (event.first < most_workers) × (event.second < most_workers) × (event.first ≡ event.second → ⊥) }
    requires movable { Movable ends.now sums.now loads.old event.first event.second step.0 }
    ensures trace { trace.new ≡ record_put trace.old k event.first event.second (number_value number) }
    ensures loads { let weight = weight_between ends.now sums.now step.0 in
        loads.new ≡ load_moved loads.old event.first event.second weight }
{
    let thief = event.first;
    let victim = event.second;
    let number = encode_number(number);
    trace::put_steal(
        trace,
        k,
        TraceRecord {
            thief,
            victim,
            number,
        },
    );
    loads::move_part(ends, sums, loads, thief as usize, victim as usize, step);
}
