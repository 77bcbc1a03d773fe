// Whole nanoseconds and delay units as two kinds, each converted to the other, and a delay's eight octets, the LOW octet first.
// Each function says by a definition what it returns, for every argument.
#![tactic(auto)]

ghost use Rattle.std.specs.Prelude.{◌<◌, ◌^◌, ◌≡◌};
ghost use Rattle.meaning.specs.Delay.{units, low_first, delay, nanoseconds_in, units_over};
ghost use Rattle.delay.specs.Stored.{stored_in};

// The delay units in a nanosecond.
const PER_NANOSECOND: u64 = 65536;

// The first count of nanoseconds that does not convert exactly: 2^47.
const TOO_LONG: u64 = 1 << 47;

// The largest delay, in units: 2^63 - 1.
const LARGEST: u64 = (1 << 63) - 1;

// Whole nanoseconds.
#[derive(Clone, Copy)]
pub struct Nanoseconds(pub u64);

// Delay units (RULES 7.1).
#[derive(Clone, Copy)]
pub struct DelayUnits(pub u64);

// Delay units as whole nanoseconds and the units over, too few for one more.
#[derive(Clone, Copy)]
pub struct Split {
    pub nanoseconds: Nanoseconds,
    pub over: DelayUnits,
}

impl Nanoseconds {
    // Exact below 2^47 nanoseconds (RULES 7.3), the largest delay from there on (RULES 7.4). So it is no `From`, which
    // loses nothing.
    pub fn to_delay_units(self) -> DelayUnits
        ensures { (result.0 ≡ units self.0) × (result.0 < 2 ^ 63) }
    {
        if self.0 < TOO_LONG {
            DelayUnits(self.0 * PER_NANOSECOND)
        } else {
            DelayUnits(LARGEST)
        }
    }

    // What is stored for so many nanoseconds.
    pub fn to_octets(self) -> [u8; 8]
        ensures { result ≡ delay self.0 }
    {
        self.to_delay_units().to_octets()
    }
}

impl DelayUnits {
    // What is stored for so many units, the LOW octet first.
    pub fn to_octets(self) -> [u8; 8]
        ensures { result ≡ low_first 8 self.0 }
    {
        self.0.to_le_bytes()
    }

    // The whole nanoseconds in so many units, and the units over.
    pub fn to_nanoseconds(self) -> Split
        ensures { (result.nanoseconds.0 ≡ nanoseconds_in self.0) × (result.over.0 ≡ units_over self.0) }
    {
        Split {
            nanoseconds: Nanoseconds(self.0 / PER_NANOSECOND),
            over: DelayUnits(self.0 % PER_NANOSECOND),
        }
    }
}

// The delay that a port stored as these octets: eight spell one, the LOW octet first, and any other count none.
pub fn from_octets(s: &[u8]) -> Option<DelayUnits>
    ensures { result ≡ stored_in s.now }
{
    let octets = s.as_array::<8>()?;
    Some(DelayUnits(u64::from_le_bytes(*octets)))
}
