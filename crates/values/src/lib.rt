// Value rules: whether a number, a base time, a control list, a cycle keep theirs, and whether intervals fit a cycle.
// Each function is called only with lengths that the table permits, and every answer is that of a definition of `meaning`.
// A value stays a slice: callers know its length by a proof, and to make an array of it is a test that cannot fail.
#![tactic(auto)]

ghost use Rattle.std.specs.Prelude.{◌/◌, ◌≤◌, ◌<◌, ◌≡◌, true, ◌&&◌, ◌||◌, length, eqb, leb};
ghost use Rattle.meaning.specs.Block.{as_number, time_ok, interval, entry_ok, entries_of, each_ok, list_ok, intervals, ratio_ok, cycle};

// A control list: octets of an entry, entries that it may have, and so its octets.
pub const ENTRY_LENGTH: usize = 7;

pub const ENTRIES_MOST: usize = 64;

pub const LIST_MOST: usize = ENTRY_LENGTH * ENTRIES_MOST;

// Where the gate states and the interval stand in an entry.
pub const STATES_AT: usize = 2;

pub const INTERVAL_AT: usize = 3;

// The largest operation of an entry, and the octet that follows it; the least and the greatest number that the two make, the low
// octet first.
const OPERATION_MOST: u16 = 2;

const ENTRY_MARK: u16 = 5;

const HEAD_LEAST: u16 = 256 * ENTRY_MARK;

const HEAD_MOST: u16 = HEAD_LEAST + OPERATION_MOST;

// Nanoseconds of a second.
const SECOND: u64 = 1_000_000_000;

// The number that one octet or four spell.
pub fn as_number(v: &[u8]) -> u64
    requires { (eqb (length v.now) 1 || eqb (length v.now) 4) ≡ true }
    ensures { (result ≡ as_number v.now) × (result < 4294967296) }
{
    if v.len() == 1 {
        u64::from(v[0])
    } else {
        octets::get32(v, 0)
    }
}

// A number from least to most.
pub fn within(v: &[u8], least: u64, most: u64) -> bool
    requires { (eqb (length v.now) 1 || eqb (length v.now) 4) ≡ true }
    ensures { result ≡ (leb least (as_number v.now) && leb (as_number v.now) most) }
{
    let n = as_number(v);
    (least <= n) & (n <= most)
}

// The nanoseconds of a base time are under 1,000,000,000.
pub fn time_ok(v: &[u8]) -> bool
    requires { length v.now ≡ 10 }
    ensures { result ≡ time_ok v.now }
{
    octets::get32(v, 6) < SECOND
}

// The denominator of a cycle is not 0.
pub fn ratio_ok(v: &[u8]) -> bool
    requires { length v.now ≡ 8 }
    ensures { result ≡ ratio_ok v.now }
{
    1 <= octets::get32(v, 4)
}

// A cycle in whole nanoseconds, the remainder dropped; its denominator is not 0.
pub fn cycle(v: &[u8]) -> u64
    requires { (length v.now ≡ 8) × (ratio_ok v.now ≡ true) }
    ensures { result ≡ cycle v.now }
{
    let numerator = octets::get32(v, 0);
    let denominator = octets::get32(v, 4);
    numerator * SECOND / denominator
}

// Whether so many nanoseconds fit a cycle whose denominator is not 0. The quotient decides: a product with the denominator
// would pass 64 bits.
pub fn fits_cycle(sum: u64, v: &[u8]) -> bool
    requires { (length v.now ≡ 8) × (ratio_ok v.now ≡ true) }
    ensures { result ≡ leb sum (cycle v.now) }
{
    sum <= cycle(v)
}

// One entry of a control list: what it has to hold (RULES 4.22 to 4.25). Its first two octets are tested as one number: the compiler
// makes one comparison of it.
fn entry_ok(e: &[u8; ENTRY_LENGTH]) -> bool
    ensures { result ≡ entry_ok e.now }
{
    let head = u16::from_le_bytes([e[0], e[1]]);
    (HEAD_LEAST <= head) & ((head <= HEAD_MOST) & (1 <= octets::get32(e, INTERVAL_AT)))
}

// The entries of a list, each looked at once and all of them, with no early exit, so that the compiler takes eight at
// a turn.
pub fn entries_ok(v: &[u8]) -> bool
    ensures { result ≡ each_ok (entries_of v.now) }
{
    let (entries, _) = v.as_chunks::<ENTRY_LENGTH>();
    let mut ok = true;
    for e in entries {
        ok &= entry_ok(e);
    }
    ok
}

// The sum of a list's intervals.
pub fn intervals(v: &[u8]) -> u64
    requires { length v.now / 7 ≤ 64 }
    ensures { result ≡ intervals (entries_of v.now) }
{
    let (entries, _) = v.as_chunks::<ENTRY_LENGTH>();
    let mut sum = 0;
    for e in entries {
        sum += octets::get32(e, INTERVAL_AT);
    }
    sum
}

// A control list: entries of 7.
pub fn list_ok(v: &[u8]) -> bool
    ensures { result ≡ list_ok v.now }
{
    (v.len() % ENTRY_LENGTH == 0) & entries_ok(v)
}
