// The records of replies and notifications, each written at a place of a room; what writes returns the place after it.
// What has been written are the octets that `meaning` gives for the record; the room's other octets stay.
#![tactic(auto)]

ghost use Rattle.std.specs.Prelude.{◌+◌, ◌≤◌, ◌<◌, ◌≡◌, cond, [], ◌∷◌, ◌++◌, length};
ghost use Rattle.meaning.specs.Octets.{be16};
ghost use Rattle.meaning.specs.Table.{entry_count, row_at};
ghost use Rattle.meaning.specs.Wire.{count_most, short_most};
ghost use Rattle.meaning.specs.Profile.{lists, names_length};
ghost use Rattle.meaning.specs.Reply.{held_octets, short_octets, failed_octets, all_names};
ghost use Rattle.octets.specs.Writing.{Wrote};

// What stands before a value of n octets: name (2), length (2).
pub fn write_value_head(out: &mut [u8], at: usize, name: usize, n: usize) -> usize
    requires { (at + 4 ≤ length out.old) × (name < 65536) × (n < 65536) }
    ensures { Wrote out.old at (be16 name ++ be16 n) result out.new }
{
    octets::put16(out, at, name);
    octets::put16(out, at + 2, n);
    at + wire::VALUE_HEAD
}

// A value: name (2), length (2), the value.
pub fn write_held(out: &mut [u8], at: usize, name: usize, value: &[u8]) -> usize
    requires { (at + (4 + length value.now) ≤ length out.old) × (name < 65536) × (length value.now < 65536) }
    ensures { Wrote out.old at (held_octets (record { name = name; value = value.now })) result out.new }
{
    let from = write_value_head(out, at, name, value.len());
    octets::append(out, from, value)
}

// A value of at most 255 octets: name (2), length (1), the value. It is not one function with `write_held`: each has a definition
// of its own, and a parameter for the width of the length would say no more than the two names do.
pub fn write_short(out: &mut [u8], at: usize, name: usize, value: &[u8]) -> usize
    requires { (at + (3 + length value.now) ≤ length out.old) × (name < 65536) × (length value.now ≤ short_most) }
    ensures { Wrote out.old at (short_octets (record { name = name; value = value.now })) result out.new }
{
    octets::put16(out, at, name);
    out[at + 2] = value.len() as u8;
    octets::append(out, at + wire::SHORT_HEAD, value)
}

// An error: name (2), cause (1).
pub fn write_failed(out: &mut [u8], at: usize, name: usize, cause: u8) -> usize
    requires { (at + 3 ≤ length out.old) × (name < 65536) }
    ensures { Wrote out.old at (failed_octets (record { name = name; cause = cause })) result out.new }
{
    octets::put16(out, at, name);
    out[at + 2] = cause;
    at + wire::ERROR_LENGTH
}

// The head of an element: identifier (1), length (2).
pub fn write_head(out: &mut [u8], at: usize, id: u8, n: usize) -> usize
    requires { (at + 3 ≤ length out.old) × (n < 65536) }
    ensures { Wrote out.old at (id ∷ be16 n) result out.new }
{
    out[at] = id;
    octets::put16(out, at + 1, n);
    at + wire::ELEMENT_HEAD
}

// The name at a place, where the profile lists it.
fn write_name(out: &mut [u8], at: usize, k: usize, profile: u8) -> usize
    requires { (k < entry_count) × (at + length (cond (lists profile k) (be16 (row_at k).name) []) ≤ length out.old) }
    ensures { Wrote out.old at (cond (lists profile k) (be16 (row_at k).name) []) result out.new }
{
    if !table::lists(profile, k) {
        return at;
    }
    let row = table::row_at(k);
    octets::put16(out, at, row.name);
    at + wire::NAME_LENGTH
}

// The names that the profile lists, in table order, each of 2 octets.
pub fn write_names(out: &mut [u8], at: usize, profile: u8) -> usize
    requires { at + names_length profile ≤ length out.old }
    ensures { Wrote out.old at (all_names profile) result out.new }
{
    let mut to = at;
    for k in 0..table::ENTRY_COUNT {
        to = write_name(out, to, k, profile);
    }
    to
}

// The octets of those names.
pub fn names_length(profile: u8) -> usize
    ensures { (result ≡ names_length profile) × (result ≤ 38) }
{
    if profile == wire::RELEASE_16 {
        wire::NAMES_LENGTH_16
    } else {
        wire::NAMES_LENGTH
    }
}

// One octet: a message's type, a count.
pub fn write_octet(out: &mut [u8], at: usize, x: u8) -> usize
    requires { at + 1 ≤ length out.old }
    ensures { Wrote out.old at (x ∷ []) result out.new }
{
    out[at] = x;
    at + 1
}

// A count of records, one octet.
pub fn write_count(out: &mut [u8], at: usize, count: usize) -> usize
    requires { (at + 1 ≤ length out.old) × (count ≤ count_most) }
    ensures { Wrote out.old at (count ∷ []) result out.new }
{
    write_octet(out, at, count as u8)
}
