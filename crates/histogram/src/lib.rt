// Phase loads over many traces (document 02, #106): a histogram by value, its start, and the call that replays a trace and adds its
// phases, by value and in place.
#![tactic(auto)]

ghost use Rattle.std.specs.Prelude.{◌≡◌};
ghost use Rattle.rules_histogram.specs.Histograms.{empty, wrapping, add_call};
ghost use Rattle.replay.specs.Contract.{answers, answers_of};
ghost use Rattle.histogram.specs.Contract.{given, stored, added, answers as added_by};

use histogram_bucket::BUCKETS;
use policy::Setup;
use refusals::Refused;
use replay::Replayed;

// How many traces a histogram takes.
pub const MOST_TRACES: u32 = 65535;

// How many traces have been added, and how many of their phases are in each bucket: in that of load 0, then in those of the limits.
// The fields leave no byte between them, so two histograms are equal where their bytes are.
#[repr(C)]
#[derive(Clone, Copy)]
pub struct Histogram {
    pub traces: u32,
    pub counts: [u32; BUCKETS],
}

// What replay answers on a trace, and the next histogram, which beside a refusal is the very one given.
#[derive(Clone, Copy)]
pub struct Added {
    pub replayed: Result<Replayed, Refused>,
    pub histogram: Histogram,
}

impl Histogram {
    // A histogram that no trace has been added to.
    #[tactic(auto, unfolding(rules_histogram::specs::Histograms::empty))]
    pub fn start() -> Histogram
        ensures { result ≡ stored empty }
    {
        Histogram {
            traces: 0,
            counts: [0; BUCKETS],
        }
    }

    // Replays a trace and adds all its phases: refusals 1 to 8 and 13 to 17, or the run list at the front of the lent buffer and the
    // next histogram. A refusal hands back the very histogram.
    #[tactic(auto, unfolding(crate::specs::Contract::answers))]
    pub fn add(self, tree: &[u8], setup: Setup, trace: &[u8], list: &mut [u8]) -> Added
        ensures answers { let call = add_call wrapping setup.workers setup.policy tree.now trace.now in
            added result ≡ added_by (call list.old (given self)) }
        ensures list { let call = add_call wrapping setup.workers setup.policy tree.now trace.now in
            list.new ≡ (call list.old (given self)).replayed.list }
    {
        let mut histogram = self;
        let replayed = histogram.add_in_place(tree, setup, trace, list);
        Added {
            replayed,
            histogram,
        }
    }

    // The same on a histogram where it stands, which a refusal leaves as it is.
    pub fn add_in_place(
        &mut self,
        tree: &[u8],
        setup: Setup,
        trace: &[u8],
        list: &mut [u8],
    ) -> Result<Replayed, Refused>
        ensures answers { let call = add_call wrapping setup.workers setup.policy tree.now trace.now in
            answers_of result ≡ answers (call list.old (given self.old)).replayed }
        ensures histogram { let call = add_call wrapping setup.workers setup.policy tree.now trace.now in
            self.new ≡ stored (call list.old (given self.old)).histogram }
        ensures list { let call = add_call wrapping setup.workers setup.policy tree.now trace.now in
            list.new ≡ (call list.old (given self.old)).replayed.list }
    {
        let full = MOST_TRACES <= self.traces;
        let replayed = replay::replay_unless(tree, setup, trace, list, full)?;
        histogram_phases::add_phases(tree, list, tree::steps(tree), &mut self.counts);
        self.traces += 1;
        Ok(replayed)
    }
}
