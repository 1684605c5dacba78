// What a run is set up with, its policies and workers, and what running a step holds next and pushes under a policy (document 01,
// "Scheduling"). In a run the policies differ in `pushes_child` alone; what a trace's numbers count is in `trace::number`.
#![tactic(auto)]

ghost use Rattle.std.specs.Prelude.{◌≡◌, ◌<◌, length, leb};
ghost use Rattle.rules.specs.Tree.{kinds};
ghost use Rattle.rules.specs.Scheduling.{pushes_child, holds, pushes};
ghost use Rattle.policy.specs.Contract.{worker_limit, running_of};
ghost use Rattle.tree_tables.specs.Terms.{Ends};

use tree::{ASYNC, END, Step, TREE_RECORD, kind};
use tree_tables::lookup::cont_by;
use tree_tables::wide;

// Policies.
pub const WORK_FIRST: u8 = 1;

pub const HELP_FIRST: u8 = 2;

// The most workers of a run.
pub const WORKERS: usize = 16;

// The most steals of a run: one for each task that a step opens.
pub const MOST_STEALS: usize = 2047;

// The most phases of a run: one for the start, and one for each steal.
pub const MOST_PHASES: usize = 2048;

// What a run is set up with: its policy, and how many workers it has.
#[derive(Clone, Copy)]
pub struct Setup {
    pub policy: u8,
    pub workers: u16,
}

impl Setup {
    // What C asks for: a policy and a count of workers, a byte each.
    pub fn of(policy: u8, workers: u8) -> Setup
        ensures { result ≡ record { policy = policy; workers = workers } }
    {
        Setup {
            policy,
            workers: workers as u16,
        }
    }
}

// What running a step does to its worker: it holds a step and pushes one, or it pops.
#[derive(Clone, Copy)]
pub enum Running {
    Opens { hold: Step, push: Step },
    Ends,
}

// How many workers a run with this count has: never more than the most, whatever a state may say.
#[tactic(auto, using(crate::proofs::Laws::Workers::limit_is, crate::proofs::Laws::Workers::limit_beyond))]
pub fn limit(workers: u16) -> usize
    ensures { result ≡ worker_limit workers }
{
    let count = wide(workers);
    if count < WORKERS {
        return count;
    }
    WORKERS
}

// Whether a byte names no worker of a run with this count.
pub fn no_worker(workers: u16, worker: u8) -> bool
    ensures { result ≡ leb (worker_limit workers) worker }
{
    limit(workers) <= worker as usize
}

// Whether running an opening step of this kind pushes the child and goes on with the parent.
#[tactic(auto, unfolding(rules::specs::Scheduling::pushes_child, rules::specs::Tree::is_async))]
pub fn pushes_child(policy: u8, kind: u8) -> bool
    ensures { result ≡ pushes_child policy kind }
{
    if policy == HELP_FIRST {
        return kind == ASYNC;
    }
    false
}

// The step that running an opening step holds next.
pub fn held_after(tree: &[u8], ends: &[u16], policy: u8, step: Step) -> Step
    requires { let ks = kinds tree.now in (step.0 < length ks) × Ends ks ends.now (length ends.now) }
    ensures { result.0 ≡ holds policy (kinds tree.now) step.0 }
{
    let i = step.0;
    if pushes_child(policy, kind(tree, step)) {
        return cont_by(tree, ends, step);
    }
    Step(i + 1)
}

// The step that running an opening step pushes.
pub fn pushed_by(tree: &[u8], ends: &[u16], policy: u8, step: Step) -> Step
    requires { let ks = kinds tree.now in (step.0 < length ks) × Ends ks ends.now (length ends.now) }
    ensures { result.0 ≡ pushes policy (kinds tree.now) step.0 }
{
    let i = step.0;
    if pushes_child(policy, kind(tree, step)) {
        return Step(i + 1);
    }
    cont_by(tree, ends, step)
}

// What running a step does to its worker. A step beyond the tree is taken as an end.
pub fn running_of(tree: &[u8], policy: u8, step: Step) -> Running
    ensures { result ≡ running_of policy (kinds tree.now) step.0 }
{
    let i = step.0;
    if tree.len() / TREE_RECORD <= i {
        return Running::Ends;
    }
    if kind(tree, step) == END {
        return Running::Ends;
    }
    let hold = held_after(tree, &[], policy, step);
    let push = pushed_by(tree, &[], policy, step);
    Running::Opens { hold, push }
}
