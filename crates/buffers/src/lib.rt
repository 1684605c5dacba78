// Bytes as all layers read and write them: numbers of two bytes, whole records, events, the records of four bytes of a log, a trace
// or a run list, and bytes copied to a lent buffer (document 01, "Trace, log, run list" and "Refusals").
#![tactic(auto)]

ghost use Rattle.std.specs.Prelude.{◌≡◌, ◌+◌, ◌*◌, ◌≤◌, length, take};
ghost use Rattle.rules.specs.Bytes.{whole_records};
ghost use Rattle.rules.specs.Calls.{written};
ghost use Rattle.buffers.specs.Terms.{number_at, event_put, record_put};

// Bytes of a record of a log, a trace or a run list.
pub const RECORD: usize = 4;

// Bytes of an event.
pub const EVENT: usize = 2;

// Two bytes as a number, the lower first (document 01: "little-endian and unsigned").
pub fn two_bytes(low: u8, high: u8) -> u16
    ensures { result ≡ low + 256 * high }
{
    u16::from_le_bytes([low, high])
}

// The number of the two bytes at a place.
#[tactic(auto, unfolding(crate::specs::Terms::number_at))]
pub fn number_at(bytes: &[u8], at: usize) -> usize
    requires { at + 2 ≤ length bytes.now }
    ensures { result ≡ number_at bytes.now at }
{
    two_bytes(bytes[at], bytes[at + 1]) as usize
}

// Whether bytes are whole records of a width, and not too many.
#[tactic(auto, unfolding(rules::specs::Bytes::whole_records))]
pub fn whole_records(bytes: &[u8], width: usize, most: usize) -> bool
    requires { 1 ≤ width }
    ensures { result ≡ whole_records width most bytes.now }
{
    if bytes.len() % width != 0 {
        return false;
    }
    bytes.len() / width <= most
}

// Stores record k: two bytes and a number of two bytes.
#[tactic(auto, unfolding(crate::specs::Terms::record_put))]
pub fn put_record(bytes: &mut [u8], k: usize, first: u8, second: u8, number: usize)
    requires { 4 * k + 4 ≤ length bytes.old }
    ensures { bytes.new ≡ record_put bytes.old k first second number }
{
    let at = RECORD * k;
    bytes[at] = first;
    bytes[at + 1] = second;
    bytes[at + 2] = (number % 256) as u8;
    bytes[at + 3] = (number / 256 % 256) as u8;
}

// Stores event k.
#[tactic(auto, unfolding(crate::specs::Terms::event_put))]
pub fn put_event(bytes: &mut [u8], k: usize, first: u8, second: u8)
    requires { 2 * k + 2 ≤ length bytes.old }
    ensures { bytes.new ≡ event_put bytes.old k first second }
{
    let at = EVENT * k;
    bytes[at] = first;
    bytes[at + 1] = second;
}

// Copies the first `count` bytes over the front of a lent buffer.
#[tactic(auto, unfolding(rules::specs::Calls::written))]
pub fn copy_out(from: &[u8], count: usize, to: &mut [u8])
    requires { (count ≤ length from.now) × (count ≤ length to.old) }
    ensures { to.new ≡ written (take count from.now) to.old }
{
    to[..count].copy_from_slice(&from[..count]);
}
