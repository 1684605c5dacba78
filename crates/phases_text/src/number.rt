// Numbers as text, alone and in lines. What is written stands at the front of a buffer, and its length is given.
ghost use Rattle.std.specs.Prelude.{◌≡◌, [], ◌∷◌, ◌++◌, ◌≤◌, length};
ghost use Rattle.rules.specs.Program.{decimal, line};
ghost use Rattle.rules.specs.Calls.{written};
ghost use Rattle.phases_text.specs.Contract.{most_line};

// Stands between two numbers.
const SPACE: u8 = 32;

// Ends a line.
const LINE_FEED: u8 = 10;

// The digit 0; the others follow it.
const ZERO: usize = 48;

// How many decimal digits are printed of a number, at most five.
fn places(number: usize) -> usize
    ensures { result ≡ length (decimal number) }
{
    if number < 10 {
        return 1;
    }
    if number < 100 {
        return 2;
    }
    if number < 1000 {
        return 3;
    }
    if number < 10000 {
        return 4;
    }
    5
}

// Writes a number in at most five decimal digits, and a byte behind it. Gives the count of both.
fn put_number(text: &mut [u8], number: usize, end: u8) -> usize
    requires { 6 ≤ length text.old }
    ensures counts { result ≡ length (decimal number ++ (end ∷ [])) }
    ensures text { text.new ≡ written (decimal number ++ (end ∷ [])) text.old }
{
    let count = places(number);
    text[count] = end;
    let mut rest = number;
    for i in (0..count).rev() {
        text[i] = (ZERO + rest % 10) as u8;
        rest /= 10;
    }
    count + 1
}

// Writes a line of two numbers. Gives its length, which is at most 12.
#[tactic(auto, using(crate::specs::Number::Laws::Texts::piece_most))]
pub fn put_two(text: &mut [u8], first: usize, second: usize) -> usize
    requires { 12 ≤ length text.old }
    ensures counts { result ≡ length (line (first ∷ second ∷ [])) }
    ensures text { text.new ≡ written (line (first ∷ second ∷ [])) text.old }
{
    let at = put_number(text, first, SPACE);
    at + put_number(&mut text[at..], second, LINE_FEED)
}

// Writes a line of three numbers. Gives its length, which is at most 18.
#[tactic(auto, using(crate::specs::Number::Laws::Texts::piece_most))]
pub fn put_line(text: &mut [u8], first: usize, second: usize, third: usize) -> usize
    requires { most_line ≤ length text.old }
    ensures counts { result ≡ length (line (first ∷ second ∷ third ∷ [])) }
    ensures text { text.new ≡ written (line (first ∷ second ∷ third ∷ [])) text.old }
{
    let at = put_number(text, first, SPACE);
    at + put_two(&mut text[at..], second, third)
}
