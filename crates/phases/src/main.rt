// Program `phases`: reads a policy, a tree and a trace from standard input and prints who ran what, or the refusal.
//
// What a descriptor delivers or takes no contract can say. Proved is the text for the bytes that were read (`list_phases`), and that
// the program is safe and ends. Tested is that it reads standard input from its start, up to MOST_INPUT bytes or to its end, and
// that it writes the text and nothing else (`tests/tests/program.rs`).
#![tactic(auto)]

ghost use Rattle.std.specs.Io.{ReadsAtMost};

use phases_text::TEXT_BYTES;
use phases_text::input::MOST_INPUT;
use std::io::{self, Read};

// Reads until the buffer is full, standard input ends or a read fails. Gives how many bytes stand at the buffer's front.
fn read_input<R: Read>(stdin: &mut R, input: &mut [u8]) -> io::Result<usize>
    ensures { ReadsAtMost result input.new }
{
    let mut at = 0;
    while at < input.len() {
        let count = stdin.read(&mut input[at..])?;
        if count == 0 {
            break;
        }
        at += count;
    }
    Ok(at)
}

// Its exit status is 0 whatever comes: that it failed stands on standard error alone.
fn main(rt: HostRuntime) {
    let mut input: [u8; MOST_INPUT] = [0; MOST_INPUT];
    let mut text: [u8; TEXT_BYTES] = [0; TEXT_BYTES];
    let Ok(count) = read_input(&mut rt.stdin(), &mut input) else {
        let _ = eprintln!(rt; "phases: standard input could not be read");
        return;
    };
    let length = phases_text::list_phases(&input[..count], &mut text);
    match rt.stdout().write_all(&text[..length]) {
        Ok(()) => {}
        Err(_) => {
            let _ = eprintln!(rt; "phases: standard output could not be written");
        }
    }
}
