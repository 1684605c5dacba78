// What C asks about the order of a frame's steps. It stands apart from the questions about a tree, which need no tables and little stack:
// a linker takes only the objects that are used.
#![tactic(auto)]

ghost use Rattle.std.specs.Prelude.{◌≡◌};
ghost use Rattle.rules_dag.specs.Spans.{span_call};
ghost use Rattle.dag_span.specs.Contract.{answers_of as span_answers_of, answers as span_answers};
ghost use Rattle.frame_dag.specs.Contract.{flat_span};

use dag_span::Spanned;
use refusals::Refused;

// A refusal and position, or the work, the span and how many steps the chain has. What is not answered is 0.
#[repr(C)]
#[derive(Clone, Copy)]
pub struct FrameSpan {
    pub number: usize,
    pub position: usize,
    pub work: u64,
    pub span: u64,
    pub length: usize,
}

impl From<Result<Spanned, Refused>> for FrameSpan {
    ghost from_gives = { λ r e. e ≡ flat_span (span_answers_of r) };

    fn from(spanned: Result<Spanned, Refused>) -> FrameSpan {
        match spanned {
            Ok(measured) => FrameSpan {
                number: 0,
                position: 0,
                work: measured.work,
                span: measured.span,
                length: measured.length,
            },
            Err(refused) => FrameSpan {
                number: refused.refusal.number() as usize,
                position: refused.position,
                work: 0,
                span: 0,
                length: 0,
            },
        }
    }
}

// Work and span of a tree: the heaviest chain of steps stands at the front of the lent buffer then, and beyond it the buffer's old
// bytes. A refusal changes no byte.
#[unsafe(no_mangle)]
pub extern "C" fn frame_span(tree: &[u8], chain: &mut [u8]) -> FrameSpan
    ensures answers { result ≡ flat_span (span_answers (span_call tree.now chain.old)) }
    ensures chain { chain.new ≡ (span_call tree.now chain.old).chain }
{
    dag_span::span(tree, chain).into()
}
