// The run list (document 01, "Trace, log, run list"): phase 0 first, each phase's records in running order, in their own part
// of the lent list. Module `phase` writes one phase.
#![tactic(auto)]

pub mod phase;

ghost use Rattle.std.specs.Prelude.{◌≡◌, length};
ghost use Rattle.rules.specs.Tree.{kinds, tree_verdict};
ghost use Rattle.rules.specs.Traces.{entry_bytes};
ghost use Rattle.rules.specs.Calls.{written};
ghost use Rattle.tree_tables.specs.Terms.{Ends};
ghost use Rattle.policy.specs.Contract.{most_phases};
ghost use Rattle.replay_spec.specs.Lists.{listed, Listable};

use phase::write_phase;
use policy::MOST_STEALS;
use tree::{Phase, Step};
use tree_tables::wide;

// Writes the run list, each phase behind the one before.
pub fn write_list(
    tree: &[u8],
    ends: &[u16],
    labels: &[u16],
    firsts: &[u16],
    policy: u8,
    phases: usize,
    list: &mut [u8],
)
    requires accepted { ((tree_verdict tree.now).number ≡ 0) × Ends (kinds tree.now) ends.now (length ends.now) }
    requires rooms { (length labels.now ≡ length (kinds tree.now)) × (length firsts.now ≡ most_phases) }
    requires listable { Listable policy (kinds tree.now) labels.now firsts.now phases (length list.old) }
    ensures { let records = listed policy (kinds tree.now) labels.now firsts.now phases in
        list.new ≡ written (entry_bytes records) list.old }
{
    let mut stack: [u16; MOST_STEALS] = [0; MOST_STEALS];
    let mut at = 0;
    for k in 0..phases {
        let first = Step(wide(firsts[k]));
        let count = write_phase(
            tree,
            ends,
            labels,
            policy,
            Phase(k),
            first,
            &mut stack,
            &mut list[at..],
        );
        at += buffers::RECORD * count;
    }
}
