// Notifications: what is due to be reported, its octets, and what becomes of the marks. The first two go by the pending marks
// of a sound memory, in table order.
#![tactic(auto)]

ghost use Rattle.std.specs.Prelude.{ℕ, ◌+◌, ◌≤◌, ◌<◌, ◌≡◌, true, length};
ghost use Rattle.meaning.specs.Table.{entry_count};
ghost use Rattle.meaning.specs.Wire.{notification_room};
ghost use Rattle.meaning.specs.Memory.{flag_limit, set_timer, sound};
ghost use Rattle.meaning.specs.Calls.{reports, notification, when_sent, turned};
ghost use Rattle.octets.specs.Writing.{Wrote};
ghost use Rattle.notification.specs.Reports.{Few, more, due_at, due_of, values_due, absent_due};
ghost use Rattle.notification.specs.Moments.{moment_of, flags_after};

use table::{Flag, Memory};

// The records due: how many values with their octets, and how many absent ones.
#[derive(Clone, Copy, Default)]
pub struct Due {
    pub values: usize,
    pub octets: usize,
    pub absent: usize,
}

// One entry more: what its pending mark makes due.
fn with_entry(d: Due, m: &Memory, k: usize) -> Due
    requires { (k < entry_count) × Few 18 d }
    ensures { (p : ℕ) → result ≡ more d (due_at p m.now k) }
{
    if !memory::has(m, k, Flag::Pending) {
        return d;
    }
    if !memory::has(m, k, Flag::Present) {
        return Due {
            absent: d.absent + 1,
            ..d
        };
    }
    Due {
        values: d.values + 1,
        octets: d.octets + wire::VALUE_HEAD + memory::body(m, k).len(),
        ..d
    }
}

// What the pending marks make due; in every profile as many records, and the same values.
pub fn count(m: &Memory) -> Due
    ensures { (p : ℕ) → result ≡ due_of (reports p m.now entry_count) }
{
    let mut d = Due::default();
    for k in 0..table::ENTRY_COUNT {
        d = with_entry(d, m, k);
    }
    d
}

// The records of the values that are due; the place after them.
fn write_values(m: &Memory, out: &mut [u8], at: usize) -> usize
    requires { at + length (values_due m.now entry_count) ≤ length out.old }
    ensures { Wrote out.old at (values_due m.now entry_count) result out.new }
{
    let mut to = at;
    for k in 0..table::ENTRY_COUNT {
        if memory::has(m, k, Flag::Pending) & memory::has(m, k, Flag::Present) {
            to = records::write_held(out, to, table::row_at(k).name, memory::body(m, k));
        }
    }
    to
}

// The records of the absent names that are due, with their cause; the place after them.
fn write_absent(m: &Memory, out: &mut [u8], at: usize, profile: u8) -> usize
    requires { at + length (absent_due profile m.now entry_count) ≤ length out.old }
    ensures { Wrote out.old at (absent_due profile m.now entry_count) result out.new }
{
    let mut to = at;
    for k in 0..table::ENTRY_COUNT {
        if memory::has(m, k, Flag::Pending) & !memory::has(m, k, Flag::Present) {
            to = records::write_failed(
                out,
                to,
                table::row_at(k).name,
                u8::from(table::absent_cause(profile)),
            );
        }
    }
    to
}

// A notification of what is due; the place after it.
pub fn write(m: &Memory, d: Due, out: &mut [u8], profile: u8) -> usize
    requires { (sound m.now ≡ true) × (d ≡ due_of (reports profile m.now entry_count)) × (notification_room ≤ length out.old) }
    ensures { Wrote out.old 0 (notification profile m.now) result out.new }
{
    let head = records::write_head(
        out,
        0,
        wire::TYPE_NOTIFY,
        2 + d.octets + wire::ERROR_LENGTH * d.absent,
    );
    let values = records::write_count(out, head, d.values);
    let count = write_values(m, out, values);
    let absent = records::write_count(out, count, d.absent);
    write_absent(m, out, absent, profile)
}

// What comes of a notification: it is sent, acknowledged, or given up.
#[derive(Clone, Copy)]
pub enum Moment {
    Sent,
    Acknowledged,
    GivenUp,
}

// The flags of an entry then: pending turns to in flight; in flight goes; in flight turns back to pending, which may stand
// beside it. The flags below those two stay.
fn flags_after(moment: Moment, f: u8) -> u8
    requires { f < flag_limit }
    ensures { result ≡ flags_after (moment_of moment) f }
{
    match moment {
        Moment::Sent => f % table::PENDING + f / table::PENDING % 2 * table::IN_FLIGHT,
        Moment::Acknowledged => f % table::IN_FLIGHT,
        Moment::GivenUp if f < table::IN_FLIGHT => f,
        Moment::GivenUp => f % table::PENDING + table::PENDING,
    }
}

// The marks of all entries turned.
fn turn(m: &mut Memory, moment: Moment)
    ensures { m.new ≡ turned (moment_of moment) entry_count m.old }
{
    for k in 0..table::ENTRY_COUNT {
        let f = flags_after(moment, memory::flags(m, k));
        memory::put_flags(m, k, f);
    }
}

// A notification is sent: the port waits, and what was pending is in flight.
pub fn begin_wait(m: &mut Memory)
    ensures { m.new ≡ turned when_sent entry_count (set_timer m.old 1 0) }
{
    memory::set_timer(m, table::WAITING, 0);
    turn(m, Moment::Sent);
}

// It is acknowledged or given up: the port is idle.
pub fn end_wait(m: &mut Memory, moment: Moment)
    ensures { m.new ≡ set_timer (turned (moment_of moment) entry_count m.old) 0 0 }
{
    turn(m, moment);
    memory::set_timer(m, table::IDLE, 0);
}
