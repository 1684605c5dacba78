// Whether a tree may be read (document 01, "Refusals" 2 to 5): its length, each of its records while some tasks are open, and the
// whole of it.
ghost use Rattle.std.specs.Prelude.{◌≡◌, [], ◌<◌, length, get_or};
ghost use Rattle.refusals.specs.Numbers.{number_in};
ghost use Rattle.tree.specs.Contract.{accepted_of, acceptance};
ghost use Rattle.rules.specs.Tree.{kinds, tree_records, wrong_length, well_formed, judge_tree_record};

use super::{ASYNC, CLASSES, END, MOST_STEPS, TREE_RECORD};
use refusals::{Refusal, Refused};

// The most tasks open together, the root counted.
const MOST_OPEN: usize = 64;

// The first four bytes of a record are a number below this: a class above one byte of a kind.
const HEADS: u32 = 256 * CLASSES as u32;

// Whether the tree is empty, not whole records, or too long.
pub fn wrong_length(tree: &[u8]) -> bool
    ensures { result ≡ wrong_length tree.now }
{
    let n = tree.len() / TREE_RECORD;
    if n == 0 {
        return true;
    }
    if tree.len() % TREE_RECORD != 0 {
        return true;
    }
    if MOST_STEPS < n {
        return true;
    }
    false
}

// Whether a record has one of the kinds, one of the classes, and bytes 2 and 3 zero: then these four bytes, the kind lowest, are a
// small number.
fn well_formed(tree: &[u8], i: usize) -> bool
    requires { i < length (kinds tree.now) }
    ensures { result ≡ well_formed (get_or (tree_records tree.now) i []) }
{
    let kind = tree[TREE_RECORD * i];
    if kind < ASYNC {
        return false;
    }
    if END < kind {
        return false;
    }
    super::words::word(tree, TREE_RECORD * i) < HEADS
}

// Judges a record while so many tasks are open.
fn judge_record(tree: &[u8], i: usize, depth: usize) -> Result<(), Refusal>
    requires { i < length (kinds tree.now) }
    ensures { number_in result ≡ judge_tree_record depth (get_or (tree_records tree.now) i []) }
{
    if !well_formed(tree, i) {
        return Err(Refusal::TreeRecord);
    }
    if depth == MOST_OPEN {
        if tree[TREE_RECORD * i] == END {
            return Ok(());
        }
        return Err(Refusal::OpenTasks);
    }
    if depth == 0 {
        return Err(Refusal::Root);
    }
    Ok(())
}

// Reads a tree whole: refusals 2 to 5, or how many steps it has.
pub fn accept(tree: &[u8]) -> Result<usize, Refused>
    ensures { accepted_of result ≡ acceptance tree.now }
{
    if wrong_length(tree) {
        return Err(Refusal::TreeLength.into());
    }
    let n = tree.len() / TREE_RECORD;
    let mut depth: usize = 1;
    for i in 0..n {
        if let Err(refusal) = judge_record(tree, i, depth) {
            return Err(refusal.at(i));
        }
        if tree[TREE_RECORD * i] == END {
            depth -= 1;
        } else {
            depth += 1;
        }
    }
    if depth != 0 {
        return Err(Refusal::Root.at(n));
    }
    Ok(n)
}
