// Program `limits`: prints the limits of the histogram (document 02, #106), one on a line.
//
// What standard output takes no contract can say. Proved is that the number for each k is limit k (`limits_root::limit`), and that
// the program is safe and ends. Tested is that it writes all of them in order and nothing else: `stdout` has what it must write.
#![tactic(auto)]

ghost use Rattle.std.specs.Prelude.{◌<◌};
ghost use Rattle.rules_histogram.specs.Limits.{limit_count};

use limits_root::limit;
use std::io;

// How many limits there are.
const LIMITS: usize = 176;

// Prints limit k, and answers whether standard output took it.
fn print_limit(rt: &impl Print, k: usize) -> io::Result<()>
    requires { k < limit_count }
{
    println!(rt; "{}", limit(k))
}

// Its exit status is 0 whatever comes: that it failed stands on standard error alone.
fn main(rt: HostRuntime) {
    for k in 0..LIMITS {
        match print_limit(&rt, k) {
            Ok(()) => {}
            Err(_) => {
                let _ = eprintln!(rt; "limits: standard output could not be written");
                return;
            }
        }
    }
}
