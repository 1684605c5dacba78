// The workers of a trace record (document 01, "Trace, log, run list"), and the refusals that they decide.
ghost use Rattle.std.specs.Prelude.{◌≡◌, length};
ghost use Rattle.rules.specs.Scheduling.{most_workers};
ghost use Rattle.refusals.specs.Numbers.{number_in};
ghost use Rattle.replay_spec.specs.Workers.{judged_workers};

use policy::{WORKERS, no_worker};
use refusals::Refusal;
use replay_spec::NO_PHASE;

// Judges a record's workers in a run with this count of workers: refusals 8, 13 and 14.
pub fn judge_workers(
    latest: &[u16; WORKERS],
    workers: u16,
    thief: u8,
    victim: u8,
) -> Result<(), Refusal>
    requires { length latest.now ≡ most_workers }
    ensures { number_in result ≡ judged_workers workers latest.now thief victim }
{
    if no_worker(workers, thief) {
        return Err(Refusal::Worker);
    }
    if no_worker(workers, victim) {
        return Err(Refusal::Worker);
    }
    if thief == victim {
        return Err(Refusal::SameWorker);
    }
    if latest[victim as usize] == NO_PHASE {
        return Err(Refusal::NoPhase);
    }
    Ok(())
}
