// A run, a steal and an event on the fields of a run's state, lent as arrays (document 01, "Scheduling"): whether it is
// refused, and else what it stores. Single events lend the arrays of a state by value, recording and the schedule maker their
// own. Module `run` judges and makes a run, `waiting` finds what its step waits for, `steal` judges and makes a steal, `ordinal`
// counts the ordinal of its step. Any fields and any bytes are safe: a held step beyond the tree is none, a tree with more records
// than a tree may have is refused with 2, and a count above 16 is 16.
#![tactic(auto)]

pub mod ordinal;
pub mod run;
pub mod steal;
pub mod waiting;

ghost use Rattle.std.specs.Prelude.{◌≡◌, List, ℕ, length};
ghost use Rattle.rules.specs.Tree.{kinds};
ghost use Rattle.tree_tables.specs.Terms.{Ends};
ghost use Rattle.run_spec.specs.Outcomes.{outcome_of};
ghost use Rattle.run_spec.specs.Moves.{fields_of, move_of, run_move, steal_move, event_move};
ghost use Rattle.run_spec.specs.Terms.{Hints};

use policy::{MOST_PHASES, Setup, WORKERS};
use refusals::Refusal;
use run_spec::{Done, Event};
use tree::{MOST_STEPS, Ordinal, Phase, Step};
use tree_tables::wide;

// A worker runs its step: refusals 8 to 10 leave the arrays as they are.
pub fn run_on(
    tree: &[u8],
    ends: &[u16],
    openers: &[u16],
    place: &mut [u8; MOST_STEPS],
    held: &mut [u16; WORKERS],
    phase: &[u16; WORKERS],
    low: &[u16; WORKERS],
    setup: Setup,
    worker: u8,
) -> Result<Done, Refusal>
    requires { Hints tree.now ends.now openers.now place.old held.old low.now }
    ensures { (base : List ℕ) → (steals : ℕ) →
        let before = fields_of place.old held.old phase.now low.now base steals setup in
        let after = fields_of place.new held.new phase.now low.now base steals setup in
        move_of (outcome_of result) after ≡ run_move before tree.now worker }
{
    run::judge_run(tree, openers, place, held, low, setup.workers, worker)?;
    let w = worker as usize;
    let step = Step(wide(held[w]));
    let from = Step(wide(low[w]));
    held[w] = run::advance(tree, ends, openers, place, setup.policy, worker, from, step);
    Ok(Done::Ran {
        phase: Phase(wide(phase[w])),
        step,
    })
}

// The thief takes the oldest step of the victim's deque, and the steal is counted: refusals 8, 11 and 12 leave all as it is.
pub fn steal_on(
    tree: &[u8],
    ends: &[u16],
    place: &mut [u8; MOST_STEPS],
    held: &mut [u16; WORKERS],
    phase: &mut [u16; WORKERS],
    low: &mut [u16; WORKERS],
    base: &mut [u16; WORKERS],
    steals: &mut u16,
    setup: Setup,
    thief: u8,
    victim: u8,
) -> Result<Done, Refusal>
    requires { Ends (kinds tree.now) ends.now (length ends.now) }
    ensures { let before =
        fields_of place.old held.old phase.old low.old base.old steals.old setup in
        let after =
        fields_of place.new held.new phase.new low.new base.new steals.new setup in
        move_of (outcome_of result) after ≡ steal_move before tree.now thief victim }
{
    steal::judge_steal(tree, held, setup.workers, thief, victim)?;
    let v = victim as usize;
    let from = Step(wide(low[v]));
    let ordinal = Ordinal(wide(base[v]));
    let taken = steal::take_step(tree, ends, place, setup.policy, victim, from, ordinal);
    let stolen = taken.ok_or(Refusal::Deque)?;
    *steals = *steals % MOST_PHASES as u16 + 1;
    steal::settle(
        held,
        phase,
        low,
        base,
        thief,
        victim,
        stolen,
        Phase(wide(*steals)),
    );
    Ok(Done::Stole(trace::number::trace_number(setup.policy, stolen.ordinal, stolen.step)))
}

// An event: of equal bytes, that worker runs its step; of different ones, the first steals from the second.
pub fn event_on(
    tree: &[u8],
    ends: &[u16],
    openers: &[u16],
    place: &mut [u8; MOST_STEPS],
    held: &mut [u16; WORKERS],
    phase: &mut [u16; WORKERS],
    low: &mut [u16; WORKERS],
    base: &mut [u16; WORKERS],
    steals: &mut u16,
    setup: Setup,
    event: Event,
) -> Result<Done, Refusal>
    requires { Hints tree.now ends.now openers.now place.old held.old low.old }
    ensures { let before =
        fields_of place.old held.old phase.old low.old base.old steals.old setup in
        let after =
        fields_of place.new held.new phase.new low.new base.new steals.new setup in
        move_of (outcome_of result) after ≡ event_move before tree.now event.first event.second }
{
    if event.first == event.second {
        return run_on(
            tree,
            ends,
            openers,
            place,
            held,
            phase,
            low,
            setup,
            event.first,
        );
    }
    steal_on(
        tree,
        ends,
        place,
        held,
        phase,
        low,
        base,
        steals,
        setup,
        event.first,
        event.second,
    )
}
