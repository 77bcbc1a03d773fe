// One operation of a command carried out on the working copy: the memory that it leaves and the answer that it gives, by the
// port's profile. Both are those of `meaning`, for sound memory.
#![tactic(auto)]

ghost use Rattle.std.specs.Prelude.{◌+◌, ◌≤◌, ◌<◌, ◌≡◌, true, cond, length};
ghost use Rattle.meaning.specs.Octets.{part};
ghost use Rattle.meaning.specs.Checks.{first_failed};
ghost use Rattle.meaning.specs.Table.{entry_count, commit};
ghost use Rattle.meaning.specs.Memory.{sound, store};
ghost use Rattle.meaning.specs.Profile.{release18, release16};
ghost use Rattle.meaning.specs.Step.{read_answer, block, commits, permitted, set_checks, stored, set_memory, subscribe_memory, unsubscribe_memory, step, answer};
ghost use Rattle.operation.specs.Handing.{op_of, Inside};
ghost use Rattle.command.specs.Answers.{told, told_read, failed_check, listed_place, may_change};

use operation::{NamedValue, Op};
use table::{Flag, Memory, Owner};
use wire::Cause;

// An answer to an operation: all names; a value, by its place in the table, or a cause to a read; that the operation's value
// is set, or a cause; no record. The name and the value of a set are the operation's, so an answer does not say them again.
#[derive(Clone, Copy)]
pub enum Answer {
    Names,
    Value(u8),
    ReadError(u8),
    Update,
    UpdateError(u8),
    Silent,
}

// The place of a name that the profile lists; none for any other name. Five functions ask for it, and a call of each would keep
// what is handed back on the stack of a message.
#[inline(always)]
#[tactic(auto, unfolding(crate::specs::Answers::listed_place))]
fn listed_place(name: usize, profile: u8) -> Option<usize>
    ensures { result ≡ listed_place profile name }
{
    let k = table::place_of(name);
    if table::lists(profile, k) {
        Some(k)
    } else {
        None
    }
}

// A read: the place of its value, or the causes of RULES 11.3 and 11.4.
fn read(m: &Memory, name: usize, profile: u8) -> Result<u8, Cause>
    ensures { told_read result ≡ told (read_answer profile m.now name) }
{
    let k = listed_place(name, profile).ok_or(Cause::NotSupported)?;
    if !memory::has(m, k, Flag::Present) {
        return Err(table::absent_cause(profile));
    }
    Ok(k as u8)
}

// A commit: the running block becomes the block of the four values, where every condition is met. A present value of one
// length fills its room, so three of the values are read as rooms, whose lengths the compiler knows.
fn put_commit(m: &mut Memory, v: &[u8]) -> bool
    requires { sound m.old ≡ true }
    ensures { (result ≡ commits m.old v.now) × (m.new ≡ cond (commits m.old v.now) (store m.old commit (block m.old)) m.old) }
{
    if !memory::four_present(m) {
        return false;
    }
    let base = memory::room(m, table::ADMIN_BASE_TIME);
    let count = memory::room(m, table::ADMIN_CONTROL_LIST_LENGTH);
    let list = memory::body(m, table::ADMIN_CONTROL_LIST);
    let ratio = memory::room(m, table::ADMIN_CYCLE_TIME);
    if !schedule::fit_together(count, list, ratio) {
        return false;
    }
    if !schedule::sums_agree(base, count, list, ratio, v) {
        return false;
    }
    memory::store_block(m);
    true
}

// A value put at a place, where its row or, for 8001, a commit's conditions permit it: a value as memory has it, which is how
// Release 18 sends it.
fn put_value(m: &mut Memory, k: usize, v: &[u8]) -> bool
    requires { (sound m.old ≡ true) × (k < entry_count) }
    ensures { (result ≡ permitted release18 m.old k v.now) × (m.new ≡ cond (permitted release18 m.old k v.now) (store m.old k (stored release18 m.old k v.now)) m.old) }
{
    if k == table::COMMIT {
        return put_commit(m, v);
    }
    if !table::permits(k, v) {
        return false;
    }
    memory::store(m, k, v);
    true
}

// A set of a value in full, as memory has it and as Release 18 sends it. The value is told by its place in what is lent, and not as a
// slice of its own: that would be copied on its way to `table::permits`, and the copy would wait until both halves of it are
// stored (DECISIONS 212). Its name and place are three numbers, and no `NamedValue`: this function is not inlined, so its callers
// would copy a struct in the same way, onto the stack of a message.
fn set_full(m: &mut Memory, s: &[u8], name: usize, from: usize, size: usize) -> Result<(), Cause>
    requires { (sound m.old ≡ true) × (from + size ≤ length s.now) }
    ensures { (failed_check result ≡ first_failed (set_checks release18 m.old name (part s.now from size))) × (m.new ≡ set_memory release18 m.old name (part s.now from size)) }
{
    let k = listed_place(name, wire::RELEASE_18).ok_or(Cause::NotSupported)?;
    if table::row_at(k).owner != Owner::Controller {
        return Err(Cause::ProtocolError);
    }
    if !put_value(m, k, &s[from..from + size]) {
        return Err(Cause::InvalidValue);
    }
    Ok(())
}

// A set in Release 16: what it alone asks, then the set of the value in full. Only one value has octets spared, and with them it
// has four: fewer than two or more would not fill its room (RULES 24.4).
fn set_16(m: &mut Memory, list: &[u8], v: NamedValue) -> Result<(), Cause>
    requires { (sound m.old ≡ true) × (v.from + v.size ≤ length list.now) }
    ensures { (failed_check result ≡ first_failed (set_checks release16 m.old v.name (part list.now v.from v.size))) × (m.new ≡ set_memory release16 m.old v.name (part list.now v.from v.size)) }
{
    let k = listed_place(v.name, wire::RELEASE_16).ok_or(Cause::NotSupported)?;
    if wire::SHORT_MOST < v.size {
        return Err(Cause::ProtocolError);
    }
    if table::spared(wire::RELEASE_16, k) == 0 {
        return set_full(m, list, v.name, v.from, v.size);
    }
    if v.size != 2 {
        return Err(Cause::InvalidValue);
    }
    let full = [0, 0, list[v.from], list[v.from + 1]];
    set_full(m, &full, v.name, 0, 4)
}

// A set: its cause where it is refused.
fn set(m: &mut Memory, list: &[u8], v: NamedValue, profile: u8) -> Result<(), Cause>
    requires { (sound m.old ≡ true) × (v.from + v.size ≤ length list.now) }
    ensures { (failed_check result ≡ first_failed (set_checks profile m.old v.name (part list.now v.from v.size))) × (m.new ≡ set_memory profile m.old v.name (part list.now v.from v.size)) }
{
    if profile == wire::RELEASE_16 {
        return set_16(m, list, v);
    }
    set_full(m, list, v.name, v.from, v.size)
}

// The mark set; nothing on an unlisted name.
fn subscribe(m: &mut Memory, name: usize, profile: u8)
    ensures { m.new ≡ subscribe_memory profile m.old name }
{
    if let Some(k) = listed_place(name, profile) {
        memory::subscribe(m, k);
    }
}

// All marks cleared; nothing on an unlisted name.
fn unsubscribe(m: &mut Memory, name: usize, profile: u8)
    ensures { m.new ≡ unsubscribe_memory profile m.old name }
{
    if let Some(k) = listed_place(name, profile) {
        memory::unsubscribe(m, k);
    }
}

// An operation of a list carried out.
#[tactic(auto, unfolding(meaning::specs::Step::step, meaning::specs::Step::answer, wire::specs::Causes::octet_of, operation::specs::Handing::op_of, crate::specs::Answers::told))]
pub fn carry_out(m: &mut Memory, list: &[u8], op: Op, profile: u8) -> Answer
    requires { (sound m.old ≡ true) × Inside (length list.now) op }
    ensures m_after { m.new ≡ step profile m.old (op_of list.now op) }
    ensures value { result ≡ told (answer profile m.old (op_of list.now op)) }
{
    match op {
        Op::Capabilities => Answer::Names,
        Op::Read(name) => match read(m, name, profile) {
            Ok(k) => Answer::Value(k),
            Err(cause) => Answer::ReadError(u8::from(cause)),
        },
        Op::Set(v) => match set(m, list, v, profile) {
            Ok(()) => Answer::Update,
            Err(cause) => Answer::UpdateError(u8::from(cause)),
        },
        Op::Subscribe(name) => {
            subscribe(m, name, profile);
            Answer::Silent
        }
        Op::Unsubscribe(name) => {
            unsubscribe(m, name, profile);
            Answer::Silent
        }
        Op::SelectiveRead(_) => Answer::ReadError(u8::from(Cause::ProtocolError)),
        Op::SelectiveSubscribe(_) | Op::SelectiveUnsubscribe(_) => Answer::Silent,
        Op::DeleteEntry(_) => Answer::UpdateError(u8::from(Cause::ProtocolError)),
    }
}

// Whether an operation with this answer may have changed memory: a value set, or a mark. Names, reads and refused sets
// leave it.
#[tactic(auto, unfolding(crate::specs::Answers::may_change))]
pub fn changes(a: Answer) -> bool
    ensures { result ≡ may_change a }
{
    matches!(a, Answer::Update | Answer::Silent)
}
