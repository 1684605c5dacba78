// The maker's draw: the next seed, and the worker that it names.
ghost use Rattle.std.specs.Prelude.{◌≡◌, ◌<◌};
ghost use Rattle.rules.specs.Scheduling.{most_workers};
ghost use Rattle.rules_schedule.specs.Schedules.{draw as draw_of, named as named_by};

// "Adds 2,654,435,769 to the seed modulo 2 to the power 32."
#[tactic(auto, unfolding(rules_schedule::specs::Schedules::draw))]
pub fn next_seed(seed: u32) -> u32
    ensures { result ≡ draw_of seed }
{
    std::num::wrapping_add_u32(seed, 2_654_435_769)
}

// "The top four bits name a victim."
#[tactic(auto, unfolding(rules_schedule::specs::Schedules::named))]
pub fn named(seed: u32) -> u8
    ensures { (result ≡ named_by seed) × (result < most_workers) }
{
    (seed / 268_435_456) as u8
}
