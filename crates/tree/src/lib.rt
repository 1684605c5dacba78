// The tree file: a frame's tasks as records of 8 bytes (document 01, "The tree file"; document 02, #103). Every function takes any
// bytes and any step, stays within the slice and ends.
#![tactic(auto)]

pub mod validation;
pub mod words;

ghost use Rattle.std.specs.Prelude.{◌≡◌, map, ◌<◌, length, get_or};
ghost use Rattle.rules.specs.Tree.{tree_records, kinds, kind_at, classes, weights};

// The serial number of a step.
#[derive(Clone, Copy)]
pub struct Step(pub usize);

// The number of children that a step's task opened before it.
#[derive(Clone, Copy)]
pub struct Ordinal(pub usize);

// The number of a phase.
#[derive(Clone, Copy, PartialEq, Eq)]
pub struct Phase(pub usize);

// Bytes of a record.
pub const TREE_RECORD: usize = 8;

// The most records of a tree.
pub const MOST_STEPS: usize = 4095;

// Kinds of records.
pub const ASYNC: u8 = 1;

pub const FINISH: u8 = 2;

pub const END: u8 = 3;

// How many classes there are.
pub const CLASSES: usize = 16;

// How many whole records the bytes have.
pub fn steps(tree: &[u8]) -> usize
    ensures { result ≡ length (kinds tree.now) }
{
    tree.len() / TREE_RECORD
}

// Byte `at` of record i, 0 where that is beyond the tree.
fn byte(tree: &[u8], i: usize, at: usize) -> u8
    requires { at < 8 }
    ensures { result ≡ get_or (map (λ x. get_or x at 0) (tree_records tree.now)) i 0 }
{
    if i < tree.len() / TREE_RECORD {
        tree[TREE_RECORD * i + at]
    } else {
        0
    }
}

// The kind of a step's record, 0 where it is beyond the tree.
#[tactic(auto, unfolding(rules::specs::Tree::kind_at, rules::specs::Tree::kinds, rules::specs::Tree::kind))]
pub fn kind(tree: &[u8], step: Step) -> u8
    ensures { result ≡ kind_at (kinds tree.now) step.0 }
{
    byte(tree, step.0, 0)
}

// The class of a step, 0 where it is beyond the tree.
#[tactic(auto, unfolding(rules::specs::Tree::classes, rules::specs::Tree::class))]
pub fn class(tree: &[u8], step: Step) -> u8
    ensures { result ≡ get_or (classes tree.now) step.0 0 }
{
    byte(tree, step.0, 1)
}

// The weight of a step, 0 where it is beyond the tree.
pub fn weight(tree: &[u8], step: Step) -> u32
    ensures { result ≡ get_or (weights tree.now) step.0 0 }
{
    let i = step.0;
    if tree.len() / TREE_RECORD <= i {
        return 0;
    }
    words::word(tree, TREE_RECORD * i + 4)
}
