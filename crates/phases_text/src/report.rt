// What program `phases` prints of a replay: the heading and the lines of an accepted one, the refusal of another.
ghost use Rattle.std.specs.Prelude.{◌≡◌, ◌++◌, ◌+◌, ◌*◌, ◌≤◌, length};
ghost use Rattle.rules.specs.Program.{heading};
ghost use Rattle.rules.specs.Calls.{written};
ghost use Rattle.phases_text.specs.Contract.{most_line};
ghost use Rattle.phases_text.specs.Line.Terms.{lines_of, Phased};
ghost use Rattle.phases_text.specs.Report.Terms.{refusal_text};

use super::line::put_lines;
use super::number::put_two;

// Writes some bytes. Gives their count.
fn put_bytes(text: &mut [u8], bytes: &[u8]) -> usize
    requires { length bytes.now ≤ length text.old }
    ensures counts { result ≡ length bytes.now }
    ensures text { text.new ≡ written bytes.now text.old }
{
    buffers::copy_out(bytes, bytes.len(), text);
    bytes.len()
}

// Writes a refusal. Gives its length, which is at most 20: a word of eight bytes, and a line of two numbers.
pub fn put_refusal(text: &mut [u8], number: usize, position: usize) -> usize
    requires { 20 ≤ length text.old }
    ensures counts { result ≡ length (refusal_text number position) }
    ensures text { text.new ≡ written (refusal_text number position) text.old }
{
    let at = put_bytes(text, b"refused ");
    at + put_two(&mut text[at..], number, position)
}

// Writes the heading, and a line for each of the first records of a run list. Gives the count of all bytes.
pub fn put_listing(text: &mut [u8], trace: &[u8], list: &[u8], records: usize) -> usize
    requires { (4 * records ≤ length list.now) × (most_line + most_line * records ≤ length text.old)
        × Phased trace.now list.now records }
    ensures counts { let lines = lines_of trace.now list.now records in
        result ≡ length (heading ++ lines) }
    ensures text { let lines = lines_of trace.now list.now records in
        text.new ≡ written (heading ++ lines) text.old }
{
    let at = put_bytes(text, b"phase worker step\n");
    at + put_lines(&mut text[at..], trace, list, records)
}
