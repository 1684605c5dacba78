// The lines that program `phases` prints of a run list: phase, worker and step of each record.
ghost use Rattle.std.specs.Prelude.{◌≡◌, ◌+◌, ◌*◌, ◌≤◌, length};
ghost use Rattle.rules.specs.Calls.{written};
ghost use Rattle.phases_text.specs.Contract.{most_line};
ghost use Rattle.phases_text.specs.Line.Terms.{worker_by, lines_of, Phased};

use super::number::put_line;
use tree::Phase;

// The worker of a phase: worker 0 of phase 0, of a later one the thief of the trace record that began it.
fn worker_of(trace: &[u8], phase: Phase) -> usize
    requires { 4 * phase.0 ≤ length trace.now }
    ensures { result ≡ worker_by trace.now phase.0 }
{
    let k = phase.0;
    if k == 0 {
        return 0;
    }
    trace[buffers::RECORD * (k - 1)] as usize
}

// Writes a line for each of the first records of a run list. Gives the count of all bytes. A line has at most 18 of them.
pub fn put_lines(text: &mut [u8], trace: &[u8], list: &[u8], records: usize) -> usize
    requires { (4 * records ≤ length list.now) × (most_line * records ≤ length text.old)
        × Phased trace.now list.now records }
    ensures counts { let lines = lines_of trace.now list.now records in
        result ≡ length lines }
    ensures text { let lines = lines_of trace.now list.now records in
        text.new ≡ written lines text.old }
{
    let mut at = 0;
    for k in 0..records {
        let i = buffers::RECORD * k;
        let phase = buffers::number_at(list, i);
        let step = buffers::number_at(list, i + 2);
        let worker = worker_of(trace, Phase(phase));
        at += put_line(&mut text[at..], phase, worker, step);
    }
    at
}
