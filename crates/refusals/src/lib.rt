// Why a call is refused (document 01, "Refusals", and document 02), and at which position.
#![tactic(auto)]

ghost use Rattle.std.specs.Prelude.{◌≡◌};
ghost use Rattle.refusals.specs.Numbers.{number_of};

// Each refusal has the number that the documents give it.
#[derive(Clone, Copy, PartialEq, Eq)]
pub enum Refusal {
    // the policy is neither 1 nor 2
    Policy = 1,
    // the tree is empty, not whole records, or longer than 32,760 bytes
    TreeLength = 2,
    // a tree record has another kind, a class above 15, or a non-zero byte 2 or 3
    TreeRecord = 3,
    // a tree record opens a task while 64 are open
    OpenTasks = 4,
    // a record follows the root's end; or the root is still open at the end
    Root = 5,
    // the events or the trace are not whole records or too many
    InputLength = 6,
    // a lent output is short: log or run list 4 n bytes, trace 2 (n - 1), events 3 n - 1, chain 2 n
    OutputLength = 7,
    // a record names a worker at or above the run's count
    Worker = 8,
    // a run event names an idle worker
    Idle = 9,
    // a run event names a worker that waits
    Waits = 10,
    // a steal's thief holds a step
    Thief = 11,
    // a steal's victim has an empty deque
    Deque = 12,
    // in a trace, thief and victim are equal
    SameWorker = 13,
    // in a trace, the victim has had no phase
    NoPhase = 14,
    // in a trace, the number breaks the rule of "Trace"
    Number = 15,
    // the count of workers is outside 1 to 16
    Count = 16,
    // 65,535 traces have been added to the histogram
    Full = 17,
}

// A refusal and its position, which is 0 where the documents name none.
#[derive(Clone, Copy, PartialEq, Eq)]
pub struct Refused {
    pub refusal: Refusal,
    pub position: usize,
}

impl Refusal {
    // The number by which C knows it.
    pub fn number(self) -> u8
        ensures { result ≡ number_of self }
    {
        self as u8
    }

    // The refusal at a position.
    pub fn at(self, position: usize) -> Refused
        ensures { result ≡ record { refusal = self; position = position } }
    {
        Refused {
            refusal: self,
            position,
        }
    }
}

impl From<Refusal> for Refused {
    ghost from_gives = { λ r e. e ≡ record { refusal = r; position = 0 } };

    // A refusal that names no position.
    fn from(refusal: Refusal) -> Refused {
        refusal.at(0)
    }
}
