// The schedule maker as C sees it. It stands apart from recording and from single events: a run and a steal are compiled into the loop that
// calls them where they have one caller.
#![tactic(auto)]

ghost use Rattle.std.specs.Prelude.{◌≡◌};
ghost use Rattle.rules_schedule.specs.Schedules.{schedule_call};
ghost use Rattle.schedule.specs.Contract.{answers as schedule_answers};
ghost use Rattle.frame_answers.specs.Contract.{flat_schedule};

use frame_answers::FrameSchedule;
use policy::Setup;

// Makes a list of events from a tree, a policy, a count of workers and a seed: it stands at the front of the lent buffer then, and
// beyond it the buffer's old bytes. A refusal changes no byte.
#[unsafe(no_mangle)]
pub extern "C" fn frame_schedule(
    tree: &[u8],
    policy: u8,
    workers: u8,
    seed: u32,
    events: &mut [u8],
) -> FrameSchedule
    ensures answers { let call = schedule_call workers policy tree.now seed events.old in
        result ≡ flat_schedule (schedule_answers call) }
    ensures events { let call = schedule_call workers policy tree.now seed events.old in
        events.new ≡ call.events }
{
    schedule::schedule(tree, Setup::of(policy, workers), seed, events).into()
}
