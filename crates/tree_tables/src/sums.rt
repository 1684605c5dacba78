// The table of what all steps before each step weigh (document 01, "The tree file"), and what the steps of each class weigh (document
// 02, #103).
ghost use Rattle.std.specs.Prelude.{◌≡◌, ◌≤◌, ◌<◌, length, replicate};
ghost use Rattle.rules.specs.Tree.{most_steps, class_count, kinds, classes as classes_of, weights};
ghost use Rattle.tree_tables.specs.Terms.{weight_before, Sums, Classed, classes_before};

use tree::{CLASSES, MOST_STEPS, Step, TREE_RECORD, class, weight};

// Entries of the table: one more than there are steps, since the last has what all weigh.
pub const SUMS: usize = MOST_STEPS + 1;

// Adds the weights up, from the first step to the last. Answers the sum of the classes, which is 0 where all steps are of class 0.
fn add_weights(tree: &[u8], sums: &mut [u64]) -> u64
    requires few_steps { length (kinds tree.now) ≤ most_steps }
    requires sums_room { length (kinds tree.now) < length sums.old }
    ensures sums { let file = tree.now in
        Sums (weights file) sums.new (length (kinds file)) }
    ensures answer { let file = tree.now in
        result ≡ weight_before (classes_of file) (length (kinds file)) }
{
    let n = tree.len() / TREE_RECORD;
    sums[0] = 0;
    let mut total: u64 = 0;
    let mut marks: u64 = 0;
    for j in 0..n {
        total += weight(tree, Step(j)) as u64;
        marks += class(tree, Step(j)) as u64;
        sums[j + 1] = total;
    }
    marks
}

// Charges each class with the weights of its steps.
fn charge(tree: &[u8], classes: &mut [u64; CLASSES])
    requires few_steps { length (kinds tree.now) ≤ most_steps }
    requires classed { Classed (classes_of tree.now) (length (kinds tree.now)) }
    requires zeroed { classes.old ≡ replicate class_count 0 }
    ensures { let file = tree.now in
        classes.new ≡ classes_before (classes_of file) (weights file) (length (kinds file)) }
{
    let n = tree.len() / TREE_RECORD;
    for j in 0..n {
        let k = class(tree, Step(j)) as usize;
        classes[k] += weight(tree, Step(j)) as u64;
    }
}

// Adds the weights up, and charges the classes with them: at once where all steps are of class 0, since to charge step by step would
// show in the time of a call.
pub fn add_up(tree: &[u8], sums: &mut [u64], classes: &mut [u64; CLASSES])
    requires few_steps { length (kinds tree.now) ≤ most_steps }
    requires sums_room { length (kinds tree.now) < length sums.old }
    requires classed { Classed (classes_of tree.now) (length (kinds tree.now)) }
    requires zeroed { classes.old ≡ replicate class_count 0 }
    ensures sums { let file = tree.now in
        Sums (weights file) sums.new (length (kinds file)) }
    ensures classes { let file = tree.now in
        classes.new ≡ classes_before (classes_of file) (weights file) (length (kinds file)) }
{
    let n = tree.len() / TREE_RECORD;
    let marks = add_weights(tree, sums);
    if marks == 0 {
        classes[0] = sums[n];
        return;
    }
    charge(tree, classes);
}
