// The text that program `phases` prints (document 01, "Tree S and its schedules"): the bytes that it has read go through
// replay, and the run list or the refusal becomes lines.
#![tactic(auto)]

pub mod input;
pub mod line;
pub mod number;
pub mod report;

ghost use Rattle.std.specs.Prelude.{◌≡◌, ◌≤◌, ◌<◌, length};
ghost use Rattle.rules.specs.Calls.{written};
ghost use Rattle.rules.specs.Program.{phases_text};
ghost use Rattle.phases_text.specs.Contract.{most_text, text_for};

use policy::Setup;
use report::{put_listing, put_refusal};

// Bytes of the longest run list.
const LIST_BYTES: usize = buffers::RECORD * tree::MOST_STEPS;

// Bytes of the longest line: three numbers of five digits, and a byte behind each. The heading is as long.
const LINE_BYTES: usize = 18;

// Bytes of the longest text: the heading and a line for each step.
pub const TEXT_BYTES: usize = LINE_BYTES + LINE_BYTES * tree::MOST_STEPS;

// Replays the tree and the trace of an input, as those of a run with the most workers, and writes the text. Gives its length. There
// is room for the longest text.
fn put_text(input: &[u8], text: &mut [u8]) -> usize
    requires { most_text ≤ length text.old }
    ensures counts { result ≡ length (phases_text input.now) }
    ensures text { text.new ≡ written (phases_text input.now) text.old }
{
    let parts = input::parts_of(input);
    let policy = parts.policy;
    let start = parts.start;
    let end = parts.end;
    let mut list: [u8; LIST_BYTES] = [0; LIST_BYTES];
    let tree = &input[start..end];
    let trace = &input[end..];
    let setup = Setup::of(policy, policy::WORKERS as u8);
    match replay::replay(tree, setup, trace, &mut list) {
        Ok(_) => put_listing(text, trace, &list, tree::steps(tree)),
        Err(refused) => put_refusal(text, refused.refusal.number() as usize, refused.position),
    }
}

// Writes what is printed of an input, of which no more than the first MOST_INPUT bytes are read. Gives the length of the text, or 0
// where there is no room for the longest text; then every byte stays as it was.
pub fn list_phases(input: &[u8], text: &mut [u8]) -> usize
    ensures counts { let bytes = text_for (length text.old) input.now in
        result ≡ length bytes }
    ensures text { let bytes = text_for (length text.old) input.now in
        text.new ≡ written bytes text.old }
    ensures told { result ≡ 0 → length text.old < most_text }
{
    if text.len() < TEXT_BYTES {
        return 0;
    }
    let end = input::place(input, input::MOST_INPUT);
    put_text(&input[..end], text)
}
