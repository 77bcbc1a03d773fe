// The table of parameters: the 19 rows in table order (RULES 3.10), the place of a name, what a row permits, and what a profile
// makes of it.
// Every answer is that of a definition of `meaning`.
#![tactic(auto)]

ghost use Rattle.std.specs.Prelude.{◌+◌, ◌≤◌, ◌≡◌};
ghost use Rattle.meaning.specs.Table.{memory_length, row, row_at, room_at, place};
ghost use Rattle.meaning.specs.Block.{permits};
ghost use Rattle.meaning.specs.Profile.{is_profile, lists, spared, cause_absent};
ghost use Rattle.wire.specs.Causes.{octet_of};
ghost use Rattle.schedule.specs.Rules.{rule_of};
ghost use Rattle.table.specs.Rows.{row_of, owner_of};

use schedule::Rule;
use wire::Cause;

// Where things stand in port memory: 19 cells of 6 octets, the timer's two octets, the bodies.
pub const ENTRY_COUNT: usize = 19;

pub const CELL_LENGTH: usize = 6;

pub const TIMER_AT: usize = 114;

pub const EXPIRIES_AT: usize = 115;

pub const BODIES_AT: usize = 116;

pub const MEMORY_LENGTH: usize = 2100;

// A cell, and the whole of port memory.
pub type Cell = [u8; CELL_LENGTH];

pub type Memory = [u8; MEMORY_LENGTH];

// Form B, in which memory is kept and lent: where its profile stands, where the memory behind it starts, and the octets in all.
pub const PROFILE_AT: usize = 0;

pub const BEHIND_AT: usize = 1;

pub const FORM_LENGTH: usize = 2101;

// Where things stand in a cell, behind its name.
pub const FLAGS_AT: usize = 2;

pub const ZERO_AT: usize = 3;

pub const SIZE_AT: usize = 4;

// The flags of an entry, by name.
#[derive(Clone, Copy)]
pub enum Flag {
    Present,
    Subscribed,
    Pending,
    InFlight,
}

// Each as a bit, and the first octet that has another bit.
pub const PRESENT: u8 = 1;

pub const SUBSCRIBED: u8 = 2;

pub const PENDING: u8 = 4;

pub const IN_FLIGHT: u8 = 8;

pub const FLAG_LIMIT: u8 = 16;

// What the timer's first octet holds.
pub const IDLE: u8 = 0;

pub const WAITING: u8 = 1;

// The places that rules name, and the name of the last.
pub const GATE_ENABLED: usize = 1;

pub const ADMIN_BASE_TIME: usize = 2;

pub const ADMIN_CONTROL_LIST_LENGTH: usize = 3;

pub const ADMIN_CONTROL_LIST: usize = 4;

pub const ADMIN_CYCLE_TIME: usize = 5;

pub const SUPPORTED_LIST_MAX: usize = 7;

pub const COMMIT: usize = 18;

pub const COMMIT_NAME: usize = 0x8001;

// Where rooms start: those of a block's base time, list and cycle, of 000B, of the running block.
pub const BASE_AT: usize = 125;

pub const LIST_AT: usize = 139;

pub const CYCLE_AT: usize = 587;

pub const MAX_AT: usize = 599;

pub const RUNNING_AT: usize = 1630;

// Octets of a cycle, and of those of a list's length that Release 16 has not on the wire.
pub const CYCLE_LENGTH: usize = 8;

const COUNT_SPARED: usize = 2;

// Who sets a parameter.
#[derive(Clone, Copy, PartialEq, Eq)]
pub enum Owner {
    Controller,
    Port,
    Nobody,
}

// A row of the table: name, least and greatest length, where its room starts, who sets it, its value rule.
#[derive(Clone, Copy)]
pub struct Row {
    pub name: usize,
    pub least: usize,
    pub most: usize,
    pub start: usize,
    pub owner: Owner,
    pub rule: Rule,
}

// A row from its fields, so that each row is one line of the table: a struct literal takes eight.
fn as_row(name: usize, least: usize, most: usize, start: usize, owner: Owner, rule: Rule) -> Row
    ensures { (row_of result ≡ row name least most (owner_of owner) (rule_of rule)) × (result.start ≡ start) }
{
    Row {
        name,
        least,
        most,
        start,
        owner,
        rule,
    }
}

// The row at a place; past the table's end one that nobody sets. A `match` is one load of a static table, where a
// constant array would be built anew at each access.
pub fn row_at(k: usize) -> Row
    ensures { (row_of result ≡ row_at k) × (result.start ≡ room_at k) × (result.start + result.most ≤ memory_length) }
{
    match k {
        0 => as_row(0x0001, 8, 8, BODIES_AT, Owner::Port, Rule::Free),
        1 => as_row(0x0003, 1, 1, 124, Owner::Controller, Rule::Within(0, 1)),
        2 => as_row(0x0004, 10, 10, BASE_AT, Owner::Controller, Rule::Time),
        3 => as_row(0x0005, 4, 4, 135, Owner::Controller, Rule::Within(0, 64)),
        4 => as_row(0x0006, 0, 448, LIST_AT, Owner::Controller, Rule::Entries),
        5 => as_row(0x0007, 8, 8, CYCLE_AT, Owner::Controller, Rule::Ratio),
        6 => as_row(0x0008, 4, 4, 595, Owner::Port, Rule::Free),
        7 => as_row(0x000B, 4, 4, MAX_AT, Owner::Nobody, Rule::Within(64, 64)),
        8 => as_row(0x0040, 1, 1, 603, Owner::Controller, Rule::Within(1, 4)),
        9 => as_row(0x0041, 1, 1, 604, Owner::Controller, Rule::Within(1, 7)),
        10 => as_row(0x0042, 1, 255, 605, Owner::Controller, Rule::Free),
        11 => as_row(0x0060, 1, 1, 860, Owner::Controller, Rule::Within(1, 7)),
        12 => as_row(0x0061, 1, 255, 861, Owner::Controller, Rule::Free),
        13 => as_row(0x00A0, 1, 1, 1116, Owner::Port, Rule::Within(1, 7)),
        14 => as_row(0x00A1, 1, 255, 1117, Owner::Port, Rule::Free),
        15 => as_row(0x00A2, 1, 1, 1372, Owner::Port, Rule::Within(1, 7)),
        16 => as_row(0x00A3, 1, 255, 1373, Owner::Port, Rule::Free),
        17 => as_row(0x00A4, 2, 2, 1628, Owner::Port, Rule::Free),
        18 => as_row(
            COMMIT_NAME,
            29,
            470,
            RUNNING_AT,
            Owner::Controller,
            Rule::Running,
        ),
        _ => as_row(0, 0, 0, MEMORY_LENGTH, Owner::Nobody, Rule::Free),
    }
}

// The place of a name in the table, 19 where it has none: as definition `place` has it, so that callers look up a row that nobody sets and
// need no branch.
pub fn place_of(name: usize) -> usize
    ensures { result ≡ place name }
{
    match name {
        0x0001 => 0,
        0x0003 => 1,
        0x0004 => 2,
        0x0005 => 3,
        0x0006 => 4,
        0x0007 => 5,
        0x0008 => 6,
        0x000B => 7,
        0x0040 => 8,
        0x0041 => 9,
        0x0042 => 10,
        0x0060 => 11,
        0x0061 => 12,
        0x00A0 => 13,
        0x00A1 => 14,
        0x00A2 => 15,
        0x00A3 => 16,
        0x00A4 => 17,
        COMMIT_NAME => COMMIT,
        _ => ENTRY_COUNT,
    }
}

// Whether a value is one that the row at a place permits: its length, and its rule.
pub fn permits(k: usize, v: &[u8]) -> bool
    ensures { result ≡ permits (row_at k) v.now }
{
    let row = row_at(k);
    let n = v.len();
    if n < row.least {
        return false;
    }
    if row.most < n {
        return false;
    }
    schedule::keeps(row.rule, v)
}

// ---- what a profile makes of it (RULES 24)

// Whether there is such a profile.
pub fn is_profile(profile: u8) -> bool
    ensures { result ≡ is_profile profile }
{
    (profile == wire::RELEASE_18) | (profile == wire::RELEASE_16)
}

// Whether the name at a place is one that the profile lists; past the table's end none is.
pub fn lists(profile: u8, k: usize) -> bool
    ensures { result ≡ lists profile k }
{
    (k < ENTRY_COUNT) & !((profile == wire::RELEASE_16) & (k == SUPPORTED_LIST_MAX))
}

// Octets at the front of the value at a place that memory has and the wire has not.
pub fn spared(profile: u8, k: usize) -> usize
    ensures { (result ≡ spared profile k) × (result ≤ 2) }
{
    if (profile == wire::RELEASE_16) & (k == ADMIN_CONTROL_LIST_LENGTH) {
        COUNT_SPARED
    } else {
        0
    }
}

// The cause of an absent value.
pub fn absent_cause(profile: u8) -> Cause
    ensures { octet_of result ≡ cause_absent profile }
{
    if profile == wire::RELEASE_16 {
        Cause::ProtocolError
    } else {
        Cause::Unavailable
    }
}
