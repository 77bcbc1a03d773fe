// Port memory: an entry read, an entry replaced in its own room, the timer's octets, fresh memory.
// Every answer and every octet left behind is that of a definition of `meaning`.
#![tactic(auto)]

ghost use Rattle.std.specs.Prelude.{◌%◌, ◌≤◌, ◌<◌, ◌≡◌, true, false, ◌||◌, [], ◌∷◌, ◌++◌, length};
ghost use Rattle.meaning.specs.Octets.{octet, be16, splice};
ghost use Rattle.meaning.specs.Table.{entry_count, row_at, admin_base_time, admin_control_list_length, admin_cycle_time, commit};
ghost use Rattle.meaning.specs.Memory.{flags_at, flag_limit, cell, room, size, subscribed, pending, in_flight, body, waiting, expiries, bit, flags, put_cell, put_room, put, store, set_marks, set_timer, four_present, absent, fresh};
ghost use Rattle.meaning.specs.Profile.{on_wire};
ghost use Rattle.meaning.specs.Step.{block};
ghost use Rattle.meaning.specs.Moves.{none_in_flight};
ghost use Rattle.memory.specs.Flags.{marked, has};

use table::{Cell, Flag, Memory};

// ---- what memory says of a parameter

// The cell at a place. The cells are the first chunks of memory.
pub fn cell(m: &Memory, k: usize) -> &Cell
    requires { k < entry_count }
    ensures { result.now ≡ cell m.now k }
{
    &m.as_chunks().0[k]
}

// The room at a place.
pub fn room(m: &Memory, k: usize) -> &[u8]
    ensures { (result.now ≡ room m.now k) × (length result.now ≡ (row_at k).most) }
{
    let row = table::row_at(k);
    let start = row.start;
    let end = start + row.most;
    &m[start..end]
}

// Whether a cell has a flag.
pub fn marked(c: &Cell, flag: Flag) -> bool
    ensures { result ≡ marked flag c.now }
{
    let bit = match flag {
        Flag::Present => table::PRESENT,
        Flag::Subscribed => table::SUBSCRIBED,
        Flag::Pending => table::PENDING,
        Flag::InFlight => table::IN_FLIGHT,
    };
    c[table::FLAGS_AT] / bit % 2 == 1
}

// The length that a cell gives.
pub fn size(c: &Cell) -> usize
    ensures { (result ≡ size c.now) × (result < 65536) }
{
    octets::get16(c, table::SIZE_AT)
}

// Whether the entry at a place has a flag.
pub fn has(m: &Memory, k: usize, flag: Flag) -> bool
    requires { k < entry_count }
    ensures { result ≡ has flag m.now k }
{
    marked(cell(m, k), flag)
}

// The value at a place, a part of its room. A length past the room, which sound memory never has, gives the room.
pub fn body(m: &Memory, k: usize) -> &[u8]
    requires { k < entry_count }
    ensures { result.now ≡ body m.now k }
{
    let s = room(m, k);
    let n = size(cell(m, k)).min(s.len());
    &s[..n]
}

// The value at a place as the wire has it in a profile.
pub fn sent_body(m: &Memory, k: usize, profile: u8) -> &[u8]
    requires { k < entry_count }
    ensures { result.now ≡ on_wire profile k (body m.now k) }
{
    let v = body(m, k);
    let spare = table::spared(profile, k);
    &v[spare.min(v.len())..]
}

// Whether a notification waits for its acknowledgement.
pub fn waiting(m: &Memory) -> bool
    ensures { result ≡ waiting m.now }
{
    m[table::TIMER_AT] == table::WAITING
}

// The expiries since it was built.
pub fn expiries(m: &Memory) -> u8
    ensures { result ≡ expiries m.now }
{
    m[table::EXPIRIES_AT]
}

// All flags of an entry as one octet, without the bits that sound memory never has.
pub fn flags(m: &Memory, k: usize) -> u8
    requires { k < entry_count }
    ensures { (result ≡ octet m.now (flags_at k) % flag_limit) × (result < flag_limit) }
{
    m[table::CELL_LENGTH * k + table::FLAGS_AT] % table::FLAG_LIMIT
}

// Whether no change is in flight.
pub fn none_in_flight(m: &Memory) -> bool
    ensures { result ≡ none_in_flight m.now }
{
    let mut none = true;
    for k in 0..table::ENTRY_COUNT {
        none = none & !has(m, k, Flag::InFlight);
    }
    none
}

// Whether the four values of a block are there (RULES 5.12).
pub fn four_present(m: &Memory) -> bool
    ensures { result ≡ four_present m.now }
{
    has(m, table::ADMIN_BASE_TIME, Flag::Present)
        & (has(m, table::ADMIN_CONTROL_LIST_LENGTH, Flag::Present)
            & (has(m, table::ADMIN_CONTROL_LIST, Flag::Present)
                & has(m, table::ADMIN_CYCLE_TIME, Flag::Present)))
}

// ---- changes

// A flag's bit where it is set: a number that is added, so that no test is made of two flags.
fn bit(on: bool, n: u8) -> u8
    ensures { (result ≡ bit on n) × (result ≤ n) }
{
    if on { n } else { 0 }
}

// The flags of an entry with another presence, and pending besides where a change is due; the marks of the entry as they stand.
pub fn flags_with(m: &Memory, k: usize, present: bool, due: bool) -> u8
    requires { k < entry_count }
    ensures { result ≡ flags present (subscribed m.now k) (pending m.now k || due) (in_flight m.now k) }
{
    let f = flags(m, k);
    let marks = f / table::SUBSCRIBED * table::SUBSCRIBED;
    let new = due & (f / table::PENDING % 2 == 0);
    marks + bit(present, table::PRESENT) + bit(new, table::PENDING)
}

// A cell's six octets. A slice, as it is lent of the memory: an array of it would be a test that cannot fail.
fn write_cell(c: &mut [u8], name: usize, f: u8, n: usize)
    requires { (length c.old ≡ 6) × (name < 65536) × (n < 65536) }
    ensures { c.new ≡ be16 name ++ (f ∷ 0 ∷ be16 n) }
{
    octets::put16(c, 0, name);
    c[table::FLAGS_AT] = f;
    c[table::ZERO_AT] = 0;
    octets::put16(c, table::SIZE_AT, n);
}

// Flags and length of the entry at a place.
pub fn put_cell(m: &mut Memory, k: usize, f: u8, n: usize)
    requires { (k < entry_count) × (n < 65536) }
    ensures { m.new ≡ put_cell m.old k f n }
{
    let at = table::CELL_LENGTH * k;
    let row = table::row_at(k);
    write_cell(&mut m[at..at + table::CELL_LENGTH], row.name, f, n);
}

// A value in its own room: the room is lent on and filled, its tail zeroed.
fn put_room(m: &mut Memory, k: usize, v: &[u8])
    requires { length v.now ≤ (row_at k).most }
    ensures { m.new ≡ put_room m.old k v.now }
{
    let row = table::row_at(k);
    let start = row.start;
    let end = start + row.most;
    octets::fill(&mut m[start..end], v);
}

// An entry replaced: its flags, its length, its value.
pub fn put(m: &mut Memory, k: usize, f: u8, v: &[u8])
    requires { (k < entry_count) × (length v.now ≤ (row_at k).most) }
    ensures { m.new ≡ put m.old k f v.now }
{
    put_cell(m, k, f, v.len());
    put_room(m, k, v);
}

// A value made present, its marks as they were.
pub fn store(m: &mut Memory, k: usize, v: &[u8])
    requires { (k < entry_count) × (length v.now ≤ (row_at k).most) }
    ensures { m.new ≡ store m.old k v.now }
{
    let f = flags_with(m, k, true, false);
    put(m, k, f, v);
}

// The block that the four values make, stored as what runs, from their rooms to its own. The rooms of the first three adjoin and the
// first two are filled, so these stand in memory as they do in the block.
pub fn store_block(m: &mut Memory)
    requires { (length (body m.old admin_base_time) ≡ 10) × (length (body m.old admin_control_list_length) ≡ 4) × (length (body m.old admin_cycle_time) ≡ 8) }
    ensures { m.new ≡ store m.old commit (block m.old) }
{
    let list = body(m, table::ADMIN_CONTROL_LIST).len();
    let n = table::LIST_AT - table::BASE_AT + list;
    let f = flags_with(m, table::COMMIT, true, false);
    put_cell(m, table::COMMIT, f, n + table::CYCLE_LENGTH);
    let at = octets::copy_within(m, table::BASE_AT, n, table::RUNNING_AT);
    let end = octets::copy_within(m, table::CYCLE_AT, table::CYCLE_LENGTH, at);
    octets::clear_from(&mut m[end..table::MEMORY_LENGTH], 0);
}

// The flags of an entry replaced, and no other octet.
pub fn put_flags(m: &mut Memory, k: usize, f: u8)
    requires { k < entry_count }
    ensures { m.new ≡ splice m.old (flags_at k) (f ∷ []) }
{
    m[table::CELL_LENGTH * k + table::FLAGS_AT] = f;
}

// Subscribed, the other flags as they stand.
pub fn subscribe(m: &mut Memory, k: usize)
    requires { k < entry_count }
    ensures { m.new ≡ set_marks m.old k true (pending m.old k) (in_flight m.old k) }
{
    let f = flags(m, k);
    put_flags(
        m,
        k,
        f / table::PENDING * table::PENDING + table::SUBSCRIBED + f % table::SUBSCRIBED,
    );
}

// No mark is left, presence as it stands.
pub fn unsubscribe(m: &mut Memory, k: usize)
    requires { k < entry_count }
    ensures { m.new ≡ set_marks m.old k false false false }
{
    let f = flags(m, k);
    put_flags(m, k, f % table::SUBSCRIBED);
}

// The timer's two octets. They are octets here, and no enum, since a caller of `set_timer` may give any.
pub fn set_timer(m: &mut Memory, waiting: u8, expiries: u8)
    ensures { m.new ≡ set_timer m.old waiting expiries }
{
    m[table::TIMER_AT] = waiting;
    m[table::EXPIRIES_AT] = expiries;
}

// The 19 cells named, absent and unmarked.
fn name_cells(m: &mut Memory)
    ensures { m.new ≡ absent entry_count m.old }
{
    for k in 0..table::ENTRY_COUNT {
        put_cell(m, k, 0, 0);
    }
}

// Fresh memory. Its two values are 0 and 64; of their octets only the last is not 0.
pub fn make_fresh(m: &mut Memory)
    ensures { m.new ≡ fresh }
{
    octets::clear_from(m, 0);
    name_cells(m);
    put_cell(m, table::GATE_ENABLED, table::PRESENT, 1);
    put_cell(m, table::SUPPORTED_LIST_MAX, table::PRESENT, 4);
    m[table::MAX_AT + 3] = 64;
}
