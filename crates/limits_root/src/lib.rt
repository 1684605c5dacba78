// The limits of the histogram (document 02, #106), computed. Limit k is the fourth root of 2 to the power k, rounded down: the
// square root of the square root, each rounded down. Both are taken a binary digit at a time, as by hand, and kept beside the
// rest that their squares leave. So no test takes a square, and no number has more than 90 bits.
#![tactic(auto)]

ghost use Rattle.std.specs.Prelude.{◌≡◌, ◌+◌, ◌*◌, ◌^◌, ◌≤◌, ◌<◌, leb};
ghost use Rattle.rules_histogram.specs.Limits.{limit_count, IsLimit};
ghost use Rattle.limits_root.specs.Terms.{base, value, number, Rounded, Extended, Fourth};

// What the low digit of a number is below: 2 to the power 44, as every limit is.
const BASE: u64 = 17592186044416;

// A number of two digits. Those met here are below 2 to the power 93, so twice a digit fits its word.
#[derive(Clone, Copy)]
struct Wide {
    high: u64,
    low: u64,
}

// Twice a number, and a binary digit behind it.
fn doubled(a: Wide, bit: u64) -> Wide
    requires { (a.low < base) × (value a < 2 ^ 92) × (bit < 2) }
    ensures { (value result ≡ 2 * value a + bit) × (result.low < base) }
{
    let low = 2 * a.low + bit;
    Wide {
        high: 2 * a.high + low / BASE,
        low: low % BASE,
    }
}

// Four times a number, and two binary digits behind it.
fn quadrupled(a: Wide, pair: u64) -> Wide
    requires { (a.low < base) × (value a < 2 ^ 91) × (pair < 4) }
    ensures { (value result ≡ 4 * value a + pair) × (result.low < base) }
{
    doubled(doubled(a, pair / 2), pair % 2)
}

// Whether a is at most b.
fn at_most(a: Wide, b: Wide) -> bool
    requires { (a.low < base) × (b.low < base) }
    ensures { result ≡ leb (value a) (value b) }
{
    if a.high == b.high {
        return a.low <= b.low;
    }
    a.high < b.high
}

// What is left of a when b is taken away.
fn minus(a: Wide, b: Wide) -> Wide
    requires { (a.low < base) × (b.low < base) × (value b ≤ value a) }
    ensures { (value result + value b ≡ value a) × (result.low < base) }
{
    if b.low <= a.low {
        return Wide {
            high: a.high - b.high,
            low: a.low - b.low,
        };
    }
    Wide {
        high: a.high - b.high - 1,
        low: a.low + BASE - b.low,
    }
}

// The square root of a number, rounded down, and what its square leaves of the number.
#[derive(Clone, Copy)]
struct Root {
    root: Wide,
    rest: Wide,
}

// Two more binary digits in the number are one more in its root x: 1 where the rest has the 4 x + 1 by which the square of 2 x + 1
// exceeds that of 2 x.
fn extended(r: Root, pair: u64) -> Root
    requires { Rounded r × (value r.root < 2 ^ 89) × (pair < 4) }
    ensures { Extended r pair result }
{
    let rest = quadrupled(r.rest, pair);
    let step = quadrupled(r.root, 1);
    if at_most(step, rest) {
        return Root {
            root: doubled(r.root, 1),
            rest: minus(rest, step),
        };
    }
    Root {
        root: doubled(r.root, 0),
        rest,
    }
}

// The square root of a number, and the square root of that.
#[derive(Clone, Copy)]
struct Roots {
    square: Root,
    fourth: Root,
}

// Four more binary digits in the number are two more in its square root, and one more in the root of that.
fn both_extended(roots: Roots, digits: u64) -> Roots
    requires { Fourth roots × (value roots.square.root < 2 ^ 88) × (digits < 16) }
    ensures { Fourth result × (number result.square ≡ 16 * number roots.square + digits) }
{
    let square = extended(extended(roots.square, digits / 4), digits % 4);
    Roots {
        square,
        fourth: extended(roots.fourth, square.root.low % 4),
    }
}

// Limit k. By fours, the binary digits of 2 to the power k are those of 2 to the power k % 4, and then zeros.
pub fn limit(k: usize) -> u64
    requires { k < limit_count }
    ensures { IsLimit k result }
{
    let zero = Wide { high: 0, low: 0 };
    let none = Root {
        root: zero,
        rest: zero,
    };
    let start = Roots {
        square: none,
        fourth: none,
    };
    let mut roots = both_extended(start, 1 << (k % 4));
    for _ in 0..k / 4 {
        roots = both_extended(roots, 0);
    }
    roots.fourth.root.low
}
