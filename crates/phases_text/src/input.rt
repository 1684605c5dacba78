// What program `phases` reads (document 01, "Tree S and its schedules"): a policy, a count of records, the tree and the trace.
// Any bytes are taken; what is missing at an input's end is 0 or empty.
ghost use Rattle.std.specs.Prelude.{◌≡◌, min, length, get_or};
ghost use Rattle.phases_text.specs.Input.Terms.{Parts};

// Bytes that are read of standard input, at most.
pub const MOST_INPUT: usize = 49152;

// Bytes before the tree: the policy and the count.
const HEAD: usize = 3;

// A byte of the input, 0 beyond its end.
fn byte(input: &[u8], i: usize) -> u8
    ensures { result ≡ get_or input.now i 0 }
{
    input.get(i).copied().unwrap_or(0)
}

// The place of an input's byte i, or the input's end where that comes first.
pub fn place(input: &[u8], i: usize) -> usize
    ensures { result ≡ min i (length input.now) }
{
    i.min(input.len())
}

// The policy of an input, and the places where its tree starts and where its tree ends and its trace starts.
#[derive(Clone, Copy)]
pub struct Input {
    pub policy: u8,
    pub start: usize,
    pub end: usize,
}

// Where the parts of an input stand.
pub fn parts_of(input: &[u8]) -> Input
    ensures { Parts input.now result.policy result.start result.end }
{
    let policy = byte(input, 0);
    let n = buffers::two_bytes(byte(input, 1), byte(input, 2)) as usize;
    let start = place(input, HEAD);
    let end = place(input, HEAD + tree::TREE_RECORD * n);
    Input { policy, start, end }
}
