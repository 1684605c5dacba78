// Work and span (document 02, #105): what all steps weigh, how long they last at least, and the chain of steps that says why, written
// where it is lent. Nothing is refused once the first step is written.
#![tactic(auto)]

ghost use Rattle.std.specs.Prelude.{◌≡◌, ◌*◌, ◌≤◌, length, Ok};
ghost use Rattle.rules.specs.Tree.{kinds, weights, tree_verdict};
ghost use Rattle.rules_dag.specs.Spans.{work as work_of, span_call};
ghost use Rattle.dag_span.specs.Contract.{answers_of, answers};
ghost use Rattle.dag_span.specs.Terms.{Measured};

use refusals::{Refusal, Refused};
use tree::{MOST_STEPS, Step, steps, weight};

// What an accepted call answers: the work, the span and how many steps the chain has.
#[derive(Clone, Copy)]
pub struct Spanned {
    pub work: u64,
    pub span: u64,
    pub length: usize,
}

// What all steps of an accepted tree weigh.
fn work(tree: &[u8]) -> u64
    requires { (tree_verdict tree.now).number ≡ 0 }
    ensures { result ≡ work_of (weights tree.now) }
{
    let mut total: u64 = 0;
    for j in 0..steps(tree) {
        total += weight(tree, Step(j)) as u64;
    }
    total
}

// Fills the tables of an accepted tree, and writes the chain.
fn measure(tree: &[u8], chain: &mut [u8]) -> Spanned
    requires accepted { (tree_verdict tree.now).number ≡ 0 }
    requires chain_room { 2 * length (kinds tree.now) ≤ length chain.old }
    ensures { Measured tree.now chain.old (answers_of (Ok result)) chain.new }
{
    let mut ends: [u16; MOST_STEPS] = [0; MOST_STEPS];
    let mut openers: [u16; MOST_STEPS] = [0; MOST_STEPS];
    let mut lasting: [u64; MOST_STEPS] = [0; MOST_STEPS];
    dag_lasting::fill(tree, &mut lasting, &mut ends, &mut openers);
    let length = dag_walk::walk(tree, &ends, &openers, &lasting, chain);
    Spanned {
        work: work(tree),
        span: lasting[0],
        length,
    }
}

// Work and span of a tree: refusals 2 to 5 and 7, or the answers, with the chain at the front of the lent buffer.
#[tactic(auto, using(crate::specs::Laws::Results::refused_answers, crate::specs::Laws::Results::refused_stays))]
pub fn span(tree: &[u8], chain: &mut [u8]) -> Result<Spanned, Refused>
    ensures answers { answers_of result ≡ answers (span_call tree.now chain.old) }
    ensures chain { chain.new ≡ (span_call tree.now chain.old).chain }
{
    let steps = tree::validation::accept(tree)?;
    if chain.len() < 2 * steps {
        return Err(Refusal::OutputLength.into());
    }
    Ok(measure(tree, chain))
}
