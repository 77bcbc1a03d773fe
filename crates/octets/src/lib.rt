// Octets in lent memory: numbers of two and four octets, a room filled, octets appended, a test for zeros.
// Each function says by a definition of `meaning` what it returns and what every lent octet holds afterwards.
#![tactic(auto)]

ghost use Rattle.std.specs.Prelude.{◌+◌, ◌-◌, ◌≤◌, ◌<◌, ◌≡◌, false, ◌++◌, length, take};
ghost use Rattle.meaning.specs.Octets.{at16, at32, be16, part, splice, zeros, blank};
ghost use Rattle.octets.specs.Writing.{Wrote};

// The number that two octets at a place spell.
pub fn get16(s: &[u8], at: usize) -> usize
    requires { at + 2 ≤ length s.now }
    ensures { (result ≡ at16 s.now at) × (result < 65536) }
{
    usize::from(u16::from_be_bytes([s[at], s[at + 1]]))
}

// The number that four octets at a place spell.
pub fn get32(s: &[u8], at: usize) -> u64
    requires { at + 4 ≤ length s.now }
    ensures { (result ≡ at32 s.now at) × (result < 4294967296) }
{
    u64::from(u32::from_be_bytes([s[at], s[at + 1], s[at + 2], s[at + 3]]))
}

// A number written as two octets at a place.
pub fn put16(s: &mut [u8], at: usize, v: usize)
    requires { (at + 2 ≤ length s.old) × (v < 65536) }
    ensures { s.new ≡ splice s.old at (be16 v) }
{
    let [high, low] = (v as u16).to_be_bytes();
    s[at] = high;
    s[at + 1] = low;
}

// Zeros from a place to the end.
pub fn clear_from(room: &mut [u8], at: usize)
    requires { at ≤ length room.old }
    ensures { room.new ≡ take at room.old ++ zeros (length room.old - at) }
{
    room[at..].fill(0);
}

// A room filled with a value, its tail zeroed.
pub fn fill(room: &mut [u8], value: &[u8])
    requires { length value.now ≤ length room.old }
    ensures { room.new ≡ value.now ++ zeros (length room.old - length value.now) }
{
    room[..value.len()].copy_from_slice(value);
    clear_from(room, value.len());
}

// Octets made the same as others, of which there are as many; nothing is done where they are the same already. The room says how
// many: of an array the compiler then knows that all of it is written, and does not write zeros there first.
pub fn renew(room: &mut [u8], src: &[u8], differ: bool)
    requires { (length room.old ≡ length src.now) × (differ ≡ false → room.old ≡ src.now) }
    ensures { room.new ≡ src.now }
{
    if !differ {
        return;
    }
    room.copy_from_slice(&src[0..room.len()]);
}

// Octets written at a place; the place after them.
pub fn append(out: &mut [u8], at: usize, src: &[u8]) -> usize
    requires { at + length src.now ≤ length out.old }
    ensures { Wrote out.old at src.now result out.new }
{
    let end = at + src.len();
    out[at..end].copy_from_slice(src);
    end
}

// Octets copied to a place behind them; the place after them.
pub fn copy_within(s: &mut [u8], from: usize, n: usize, at: usize) -> usize
    requires { (from + n ≤ at) × (at + n ≤ length s.old) }
    ensures { Wrote s.old at (part s.old from n) result s.new }
{
    s.copy_within(from..from + n, at);
    at + n
}

// Whether every octet is 0: all of them joined by `|`, a load and an operation for 16 octets.
pub fn is_blank(s: &[u8]) -> bool
    ensures { result ≡ blank s.now }
{
    s.iter().fold(0, |any, x| any | *x) == 0
}
