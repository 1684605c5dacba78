// What C asks about a tree, for a program that shows one: answers are numbers or flat structs of them, and a slice is a pointer and
// a length. Every function takes any bytes and any numbers.
#![tactic(auto)]

ghost use Rattle.std.specs.Prelude.{◌≡◌, get_or};
ghost use Rattle.rules.specs.Tree.{kinds, classes, weights, kind_at, cont, finish_before};
ghost use Rattle.tree.specs.Contract.{accepted_of, acceptance};
ghost use Rattle.policy.specs.Contract.{running_of};
ghost use Rattle.tree.specs.Steps.{maybe_step};
ghost use Rattle.tree_scan.specs.Contract.{task_of};
ghost use Rattle.frame_tree.specs.Contract.{flat_tree, flat_task, flat_child, flat_running};

use policy::Running;
use refusals::Refused;
use tree::Step;
use tree_scan::Task;

// A tree's refusal and position, or its count of steps. What is not answered is 0.
#[repr(C)]
#[derive(Clone, Copy)]
pub struct FrameTree {
    pub number: usize,
    pub position: usize,
    pub steps: usize,
}

impl From<Result<usize, Refused>> for FrameTree {
    ghost from_gives = { λ r e. e ≡ flat_tree (accepted_of r) };

    fn from(accepted: Result<usize, Refused>) -> FrameTree {
        match accepted {
            Ok(steps) => FrameTree {
                number: 0,
                position: 0,
                steps,
            },
            Err(refused) => FrameTree {
                number: refused.refusal.number() as usize,
                position: refused.position,
                steps: 0,
            },
        }
    }
}

// Whether bytes are a tree.
#[unsafe(no_mangle)]
pub extern "C" fn frame_tree(tree: &[u8]) -> FrameTree
    ensures { result ≡ flat_tree (acceptance tree.now) }
{
    tree::validation::accept(tree).into()
}

// The kind of a step's record, 0 for a step beyond the tree.
#[unsafe(no_mangle)]
pub extern "C" fn frame_kind(tree: &[u8], step: usize) -> u8
    ensures { result ≡ kind_at (kinds tree.now) step }
{
    tree::kind(tree, Step(step))
}

// The class of a step, 0 for a step beyond the tree.
#[unsafe(no_mangle)]
pub extern "C" fn frame_class(tree: &[u8], step: usize) -> u8
    ensures { result ≡ get_or (classes tree.now) step 0 }
{
    tree::class(tree, Step(step))
}

// The weight of a step, 0 for a step beyond the tree.
#[unsafe(no_mangle)]
pub extern "C" fn frame_weight(tree: &[u8], step: usize) -> u32
    ensures { result ≡ get_or (weights tree.now) step 0 }
{
    tree::weight(tree, Step(step))
}

// The step after the end of the child that a step opens.
#[unsafe(no_mangle)]
pub extern "C" fn frame_cont(tree: &[u8], step: usize) -> usize
    ensures { result ≡ cont (kinds tree.now) step }
{
    let after = tree_scan::children::cont(tree, Step(step));
    after.0
}

// A step's task, named by the task's first step, and the step's ordinal in it.
#[repr(C)]
#[derive(Clone, Copy)]
pub struct FrameTask {
    pub first: usize,
    pub ordinal: usize,
}

impl From<Task> for FrameTask {
    ghost from_gives = { λ t e. e ≡ flat_task t };

    fn from(task: Task) -> FrameTask {
        FrameTask {
            first: task.first.0,
            ordinal: task.ordinal.0,
        }
    }
}

// The task that a step belongs to.
#[unsafe(no_mangle)]
pub extern "C" fn frame_task(tree: &[u8], step: usize) -> FrameTask
    ensures { result ≡ flat_task (task_of (kinds tree.now) step) }
{
    tree_scan::task_of(tree, Step(step)).into()
}

// The first step of the finish child whose end stands just before a step, 0 for none.
#[unsafe(no_mangle)]
pub extern "C" fn frame_finish_before(tree: &[u8], step: usize) -> usize
    ensures { result ≡ flat_child (maybe_step (finish_before (kinds tree.now) step)) }
{
    match tree_scan::children::finish_before(tree, Step(step)) {
        Some(first) => first.0,
        None => 0,
    }
}

// The step that running a step holds next and the one that it pushes, and 1 in `opens`; for an end, or a step beyond the tree, all
// three are 0.
#[repr(C)]
#[derive(Clone, Copy)]
pub struct FrameRunning {
    pub opens: usize,
    pub hold: usize,
    pub push: usize,
}

impl From<Running> for FrameRunning {
    ghost from_gives = { λ r e. e ≡ flat_running r };

    fn from(running: Running) -> FrameRunning {
        match running {
            Running::Opens { hold, push } => FrameRunning {
                opens: 1,
                hold: hold.0,
                push: push.0,
            },
            Running::Ends => FrameRunning {
                opens: 0,
                hold: 0,
                push: 0,
            },
        }
    }
}

// What running a step does under a policy.
#[unsafe(no_mangle)]
pub extern "C" fn frame_running(tree: &[u8], policy: u8, step: usize) -> FrameRunning
    ensures { result ≡ flat_running (running_of policy (kinds tree.now) step) }
{
    policy::running_of(tree, policy, Step(step)).into()
}
