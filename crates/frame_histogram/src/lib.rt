// The histogram of phase loads as C sees it. It stands apart from replay: the walk over a trace is compiled into the call where it has one
// caller, and a linker takes only the objects that are used.
#![tactic(auto)]

ghost use Rattle.std.specs.Prelude.{◌≡◌};
ghost use Rattle.rules_histogram.specs.Histograms.{empty, wrapping, add_call};
ghost use Rattle.histogram.specs.Contract.{given, stored, added, answers};
ghost use Rattle.frame_histogram.specs.Contract.{flat_added};

use frame_answers::FrameReplay;
use histogram::{Added, Histogram};
use policy::Setup;

// What a replay answers, and the next histogram.
#[repr(C)]
#[derive(Clone, Copy)]
pub struct FrameAdded {
    pub replay: FrameReplay,
    pub histogram: Histogram,
}

impl From<Added> for FrameAdded {
    ghost from_gives = { λ a e. e ≡ flat_added (added a) };

    fn from(added: Added) -> FrameAdded {
        FrameAdded {
            replay: added.replayed.into(),
            histogram: added.histogram,
        }
    }
}

// A histogram that no trace has been added to.
#[unsafe(no_mangle)]
pub extern "C" fn frame_histogram_start() -> Histogram
    ensures { result ≡ stored empty }
{
    Histogram::start()
}

// Replays a trace and adds its phases to a histogram: the run list stands at the front of the lent buffer then, and beyond it its old
// bytes. A refusal changes no byte and hands back the very histogram.
#[unsafe(no_mangle)]
pub extern "C" fn frame_histogram_add(
    histogram: Histogram,
    tree: &[u8],
    policy: u8,
    workers: u8,
    trace: &[u8],
    list: &mut [u8],
) -> FrameAdded
    ensures answers { let call = add_call wrapping workers policy tree.now trace.now list.old (given histogram) in
        result ≡ flat_added (answers call) }
    ensures list { let call = add_call wrapping workers policy tree.now trace.now list.old (given histogram) in
        list.new ≡ call.replayed.list }
{
    histogram
        .add(tree, Setup::of(policy, workers), trace, list)
        .into()
}
