// The bucket of a load in the histogram (document 02, #106), for any load and without a search. Limit 4 b is 2 to the power b,
// so the load's highest set bit leaves four limits, and three comparisons tell the highest of them that does not exceed it. The
// three above a lower power of 2 are the last three of the table, halved. So the table is read at three places that the
// compiler knows: read at a place that varies, it would be laid out anew for each load.
#![tactic(auto)]

ghost use Rattle.std.specs.Prelude.{◌≡◌, ◌/◌, ◌^◌, ◌≤◌, ◌<◌};
ghost use Rattle.rules_histogram.specs.Limits.{limits, place};
ghost use Rattle.histogram_limits.specs.Terms.{power_count, Near, passes as passes_of};

// Limit k is the largest whole number whose fourth power is at most 2 to the power k.
pub const LIMITS: [u64; 176] = [
    1,
    1,
    1,
    1,
    2,
    2,
    2,
    3,
    4,
    4,
    5,
    6,
    8,
    9,
    11,
    13,
    16,
    19,
    22,
    26,
    32,
    38,
    45,
    53,
    64,
    76,
    90,
    107,
    128,
    152,
    181,
    215,
    256,
    304,
    362,
    430,
    512,
    608,
    724,
    861,
    1024,
    1217,
    1448,
    1722,
    2048,
    2435,
    2896,
    3444,
    4096,
    4870,
    5792,
    6888,
    8192,
    9741,
    11585,
    13777,
    16384,
    19483,
    23170,
    27554,
    32768,
    38967,
    46340,
    55108,
    65536,
    77935,
    92681,
    110217,
    131072,
    155871,
    185363,
    220435,
    262144,
    311743,
    370727,
    440871,
    524288,
    623487,
    741455,
    881743,
    1048576,
    1246974,
    1482910,
    1763487,
    2097152,
    2493948,
    2965820,
    3526975,
    4194304,
    4987896,
    5931641,
    7053950,
    8388608,
    9975792,
    11863283,
    14107900,
    16777216,
    19951584,
    23726566,
    28215801,
    33554432,
    39903169,
    47453132,
    56431603,
    67108864,
    79806338,
    94906265,
    112863206,
    134217728,
    159612677,
    189812531,
    225726412,
    268435456,
    319225354,
    379625062,
    451452825,
    536870912,
    638450708,
    759250124,
    902905650,
    1073741824,
    1276901416,
    1518500249,
    1805811301,
    2147483648,
    2553802833,
    3037000499,
    3611622602,
    4294967296,
    5107605667,
    6074000999,
    7223245205,
    8589934592,
    10215211334,
    12148001999,
    14446490411,
    17179869184,
    20430422668,
    24296003999,
    28892980822,
    34359738368,
    40860845336,
    48592007999,
    57785961645,
    68719476736,
    81721690673,
    97184015999,
    115571923290,
    137438953472,
    163443381347,
    194368031998,
    231143846581,
    274877906944,
    326886762694,
    388736063996,
    462287693163,
    549755813888,
    653773525389,
    777472127993,
    924575386326,
    1099511627776,
    1307547050779,
    1554944255987,
    1849150772653,
    2199023255552,
    2615094101558,
    3109888511975,
    3698301545306,
    4398046511104,
    5230188203117,
    6219777023950,
    7396603090612,
    8796093022208,
    10460376406235,
    12439554047901,
    14793206181225,
];

// A bucket for load 0, and one for each limit.
pub const BUCKETS: usize = 177;

// Every fourth limit is a power of 2: limit 4 b is 2 to the power b, for each b below this.
const POWERS: u32 = 44;

// The table is the rules' list.
#[tactic(auto, unfolding(rules_histogram::specs::Limits::limits))]
fn table() -> [u64; 176]
    ensures { result ≡ limits }
{
    LIMITS
}

// The highest set bit of a load, or the last b where that is higher.
fn top_bit(load: u64) -> u32
    requires { 0 < load }
    ensures { Near load result }
{
    let bit = 63 - u64::leading_zeros(load);
    if POWERS <= bit {
        return POWERS - 1;
    }
    bit
}

// 1 where a limit, halved some times, does not exceed the load, else 0.
fn passes(load: u64, limit: u64, halvings: u32) -> usize
    requires { halvings < power_count }
    ensures passes { result ≡ passes_of load (limit / 2 ^ halvings) }
    ensures most { result ≤ 1 }
{
    (limit >> halvings <= load) as usize
}

// The place of a load's bucket by its highest bit: that of the power of 2 there, and one more for each of the three limits above
// it that the load reaches.
fn near(load: u64, bit: u32) -> usize
    requires { Near load bit }
    ensures { result ≡ place load }
{
    let limits = table();
    let halvings = POWERS - 1 - bit;
    let one = passes(load, limits[173], halvings);
    let two = passes(load, limits[174], halvings);
    let three = passes(load, limits[175], halvings);
    1 + 4 * bit as usize + one + two + three
}

// The place of a load's bucket: 0 for load 0, else one more than the highest k whose limit does not exceed it.
pub fn bucket(load: u64) -> usize
    ensures { result ≡ place load }
{
    if load == 0 {
        return 0;
    }
    near(load, top_bit(load))
}
