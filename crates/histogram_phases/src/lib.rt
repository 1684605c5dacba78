// The phases of a trace in the histogram (document 02, #106): one pass over the run list that replay has written, where the phases
// stand one behind the other, adds up the weights of each phase's steps and counts the phase in the bucket of that load.
#![tactic(auto)]

ghost use Rattle.std.specs.Prelude.{◌≡◌, ◌*◌, ◌≤◌, length};
ghost use Rattle.rules.specs.Tree.{most_steps, weights};
ghost use Rattle.rules_histogram.specs.Histograms.{wrapping, add_load, add_loads};
ghost use Rattle.histogram_phases.specs.Terms.{entries_read, phase_loads};

use histogram_bucket::BUCKETS;
use tree::Step;

// Counts one more load in its bucket.
#[tactic(auto, using(histogram_limits::proofs::Laws::Buckets::place_within))]
fn add_load(counts: &mut [u32; BUCKETS], load: u64)
    ensures { counts.new ≡ add_load wrapping counts.old load }
{
    let place = histogram_bucket::bucket(load);
    counts[place] = std::num::wrapping_add_u32(counts[place], 1);
}

// Counts each phase of the first n records of a run list, by the weight of its steps. A record of another phase ends the one at hand.
pub fn add_phases(tree: &[u8], list: &[u8], n: usize, counts: &mut [u32; BUCKETS])
    requires { (4 * n ≤ length list.now) × (n ≤ most_steps) }
    ensures { let loads = phase_loads (weights tree.now) (entries_read list.now n) in
        counts.new ≡ add_loads wrapping counts.old loads }
{
    let mut phase = 0;
    let mut load = 0u64;
    for i in 0..n {
        let at = buffers::RECORD * i;
        let next = buffers::number_at(list, at);
        let weight = tree::weight(tree, Step(buffers::number_at(list, at + 2))) as u64;
        if next == phase {
            load += weight;
        } else {
            add_load(counts, load);
            phase = next;
            load = weight;
        }
    }
    add_load(counts, load);
}
