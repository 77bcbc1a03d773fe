// Sound memory: whether lent octets, of any length, are sound port memory, in form B or in the old form. One test serves both.
// First what the entries hold, then the octets between the values; all of them are looked at, with no early exit in a scan.
#![tactic(auto)]

ghost use Rattle.std.specs.Prelude.{◌≤◌, ◌<◌, ◌≡◌, true, cond, [], ◌∷◌, length, eqb};
ghost use Rattle.meaning.specs.Table.{entry_count, row_at, room_at, by_port};
ghost use Rattle.meaning.specs.Block.{permits};
ghost use Rattle.meaning.specs.Memory.{flag_limit, cell, is_present, size, timer_sound, sound};
ghost use Rattle.meaning.specs.Profile.{bounded};
ghost use Rattle.meaning.specs.FormB.{sound_form_b};
ghost use Rattle.meaning.specs.Moves.{sound_old};
ghost use Rattle.table.specs.Rows.{owner_of};
ghost use Rattle.soundness.specs.Fields.{cell_sound, fields_at, gap_at, all_fields, all_tails, across_sound};

use table::{Cell, Flag, Memory, Owner};

// The most that memory of Release 16 holds: a list of as many entries, each of 7 octets, as stand in the 255 octets of a value of a set
// there, and a running block, which has 22 octets besides its list.
const ENTRIES_MOST: usize = 36;

const LIST_MOST: usize = 7 * ENTRIES_MOST;

const BLOCK_MOST: usize = 22 + LIST_MOST;

// The first octet that the flags of a cell may not be. Pending and in flight, the two highest, are for names that the port sets, and
// in flight stands only while waiting.
fn flag_limit(owner: Owner, waiting: bool) -> u8
    ensures { result ≡ cond (by_port (owner_of owner)) (cond waiting flag_limit 8) 4 }
{
    match owner {
        Owner::Port if waiting => table::FLAG_LIMIT,
        Owner::Port => table::IN_FLIGHT,
        Owner::Controller | Owner::Nobody => table::PENDING,
    }
}

// Name, zero octet and flags of a cell (RULES 5.2 to 5.6, 5.17). The name tells which flags there are, so of most cells one comparison
// tells all.
fn cell_sound(k: usize, c: &Cell, waiting: bool) -> bool
    ensures { result ≡ cell_sound waiting (row_at k) c.now }
{
    let row = table::row_at(k);
    let named = octets::get16(c, 0) == row.name;
    let limit = flag_limit(row.owner, waiting);
    let marked = table::PENDING <= c[table::FLAGS_AT];
    let subscribed = memory::marked(c, Flag::Subscribed);
    named & ((c[table::ZERO_AT] == 0) & ((c[table::FLAGS_AT] < limit) & (!marked | subscribed)))
}

// A present value keeps its row, an absent one has length 0.
fn value_sound(k: usize, c: &Cell, v: &[u8]) -> bool
    ensures { result ≡ cond (is_present c.now) (permits (row_at k) v.now) (eqb (length v.now) 0) }
{
    if memory::marked(c, Flag::Present) {
        table::permits(k, v)
    } else {
        v.len() == 0
    }
}

// The entry at a place, but for the octets past its length.
fn fields_at(m: &Memory, k: usize) -> bool
    requires { k < entry_count }
    ensures { result ≡ fields_at m.now k }
{
    let c = memory::cell(m, k);
    let s = memory::room(m, k);
    let n = memory::size(c);
    if s.len() < n {
        return false;
    }
    cell_sound(k, c, memory::waiting(m)) & value_sound(k, c, &s[0..n])
}

// All entries. Each place is a constant here, so that its row is folded into the compiled code; the tests are joined in two halves,
// since the compiler keeps what it joins on the stack.
fn all_fields(m: &Memory) -> bool
    ensures { result ≡ all_fields m.now }
{
    let half = fields_at(m, 0)
        & fields_at(m, 1)
        & fields_at(m, 2)
        & fields_at(m, 3)
        & fields_at(m, 4)
        & fields_at(m, 5)
        & fields_at(m, 6)
        & fields_at(m, 7)
        & fields_at(m, 8)
        & fields_at(m, 9);
    if !half {
        return false;
    }
    fields_at(m, 10)
        & fields_at(m, 11)
        & fields_at(m, 12)
        & fields_at(m, 13)
        & fields_at(m, 14)
        & fields_at(m, 15)
        & fields_at(m, 16)
        & fields_at(m, 17)
        & fields_at(m, 18)
}

// The octets between the value before an entry, which ends at `end`, and its own: where the next ones start, if these are blank. Rooms
// without a value join up with the tails before them, so one scan covers all between two values.
fn gap_at(m: &Memory, k: usize, end: usize) -> Option<usize>
    requires { (k < entry_count) × (end ≤ room_at k) × (size (cell m.now k) ≤ (row_at k).most) }
    ensures { result ≡ gap_at m.now k end }
{
    let n = memory::size(memory::cell(m, k));
    if n == 0 {
        return Some(end);
    }
    let start = table::row_at(k).start;
    octets::is_blank(&m[end..start]).then_some(start + n)
}

// The octets past the lengths of all entries.
fn all_tails(m: &Memory) -> bool
    requires { all_fields m.now ≡ true }
    ensures { result ≡ all_tails m.now }
{
    let mut end = table::BODIES_AT;
    for k in 0..table::ENTRY_COUNT {
        let Some(next) = gap_at(m, k, end) else {
            return false;
        };
        end = next;
    }
    octets::is_blank(&m[end..])
}

// The timer's octets: waiting with 0 to 4 expiries, or idle with none.
fn timer_sound(waiting: u8, expiries: u8) -> bool
    ensures { result ≡ timer_sound (waiting ∷ expiries ∷ []) }
{
    match waiting {
        table::WAITING => expiries <= wire::EXPIRIES_MOST,
        table::IDLE => expiries == 0,
        _ => false,
    }
}

// What is asked across entries (RULES 5.10, 5.12) and of the timer (RULES 5.13).
fn across_sound(m: &Memory) -> bool
    ensures { result ≡ across_sound m.now }
{
    let gate = memory::has(m, table::GATE_ENABLED, Flag::Present);
    let most = memory::has(m, table::SUPPORTED_LIST_MAX, Flag::Present);
    let runs = memory::has(m, table::COMMIT, Flag::Present);
    let four = memory::four_present(m);
    gate & (most & ((!runs | four) & timer_sound(m[table::TIMER_AT], m[table::EXPIRIES_AT])))
}

// Whether memory is sound, nothing ahead of it.
fn sound(m: &Memory) -> bool
    ensures { result ≡ sound m.now }
{
    all_fields(m) && (all_tails(m) & across_sound(m))
}

// What a profile asks besides: Release 18 nothing, Release 16 a list and a running block that it can hold (RULES 24.8), and no mark on
// the name that it does not list (RULES 24.9).
fn bounded(m: &Memory, profile: u8) -> bool
    ensures { result ≡ bounded profile m.now }
{
    if profile != wire::RELEASE_16 {
        return true;
    }
    let list = memory::body(m, table::ADMIN_CONTROL_LIST);
    let block = memory::body(m, table::COMMIT);
    let marked = memory::has(m, table::SUPPORTED_LIST_MAX, Flag::Subscribed);
    (list.len() <= LIST_MOST) & ((block.len() <= BLOCK_MOST) & !marked)
}

// Whether they are sound in form B: a profile, then sound memory (RULES 23.3) within the bounds of that profile.
pub fn sound_form_b(b: &[u8]) -> bool
    ensures { result ≡ sound_form_b b.now }
{
    let Some((profile, behind)) = b.split_first() else {
        return false;
    };
    let Some(m) = behind.as_array() else {
        return false;
    };
    table::is_profile(*profile) && (sound(m) & bounded(m, *profile))
}

// Whether they are sound in the old form, which has no flag in flight (RULES 23.6).
pub fn sound_old(m: &[u8]) -> bool
    ensures { result ≡ sound_old m.now }
{
    let Some(m) = m.as_array() else {
        return false;
    };
    sound(m) & memory::none_in_flight(m)
}
