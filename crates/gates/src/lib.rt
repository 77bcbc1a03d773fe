// Which gates are open at an instant (RULES 22): what a driver of the gates asks of the running block, in memory that it lends.
// Nothing is written, no block is copied, and each entry is looked at once at most.
#![tactic(auto)]

ghost use Rattle.std.specs.Prelude.{◌-◌, ◌/◌, ◌%◌, ◌≤◌, ◌<◌, ◌≡◌, true, length};
ghost use Rattle.meaning.specs.Block.{form_and_fit};
ghost use Rattle.meaning.specs.Memory.{sound};
ghost use Rattle.meaning.specs.Gates.{entry_at, gates_of, gates_number};
ghost use Rattle.meaning.specs.FormB as form_b;
ghost use Rattle.gates.specs.Answers.{refusal_number, told, answer_of, running};

use table::{Flag, Memory};

// Why there is no answer: the memory is not that of a port, or no block runs.
#[derive(Clone, Copy)]
pub enum Refusal {
    MemoryUnsound,
    NothingRuns,
}

// The answer: the instant is before the base time; or the gate states, the entry's number from 0, and the nanoseconds to
// the next change.
#[derive(Clone, Copy)]
pub enum Gates {
    NotStarted,
    Open {
        states: u8,
        entry: usize,
        nanoseconds: u64,
    },
}

// The number of a refusal.
fn refusal_number(why: Refusal) -> usize
    ensures { result ≡ refusal_number why }
{
    match why {
        Refusal::MemoryUnsound => 1,
        Refusal::NothingRuns => 15,
    }
}

// The number of an answer: 0 unless it is refused.
pub fn number(answer: Result<Gates, Refusal>) -> usize
    ensures { result ≡ gates_number (answer_of answer) }
{
    match answer {
        Ok(_) => 0,
        Err(why) => refusal_number(why),
    }
}

// The entry at a time in the cycle: the first whose interval has not ended, past all of them the last.
fn entry_at(list: &[u8], time: u64, cycle: u64) -> Gates
    requires { (7 ≤ length list.now) × (length list.now ≤ 448) × (length list.now % 7 ≡ 0) × (time < cycle) }
    ensures { told result ≡ entry_at (length list.now / 7 - 1) list.now 0 0 time cycle }
{
    let last = list.len() / values::ENTRY_LENGTH - 1;
    let mut end: u64 = 0;
    for k in 0..last {
        let at = values::ENTRY_LENGTH * k;
        end += octets::get32(list, at + values::INTERVAL_AT);
        if time < end {
            return Gates::Open {
                states: list[at + values::STATES_AT],
                entry: k,
                nanoseconds: end - time,
            };
        }
    }
    Gates::Open {
        states: list[values::ENTRY_LENGTH * last + values::STATES_AT],
        entry: last,
        nanoseconds: cycle - time,
    }
}

// What a block answers.
fn ask(block: &[u8], instant: i64) -> Gates
    requires { form_and_fit block.now ≡ true }
    ensures { told result ≡ gates_of block.now instant }
{
    if instant < 0 {
        return Gates::NotStarted;
    }
    let cycle = values::cycle(schedule::ratio_of(block));
    let time = instant as u64 % cycle;
    entry_at(schedule::list_of(block), time, cycle)
}

// What the memory of a port answers, whatever its profile: its running block, if there is one.
fn ask_memory(m: &Memory, instant: i64) -> Result<Gates, Refusal>
    requires { sound m.now ≡ true }
    ensures { answer_of result ≡ running m.now instant }
{
    if !memory::has(m, table::COMMIT, Flag::Present) {
        return Err(Refusal::NothingRuns);
    }
    Ok(ask(memory::body(m, table::COMMIT), instant))
}

// Which gates are open at an instant, in nanoseconds from the base time. Behind the first octet of sound memory stand as many as
// memory has, so `unwrap` is proved, and tests nothing.
pub fn gates_at(memory: &[u8], instant: i64) -> Result<Gates, Refusal>
    ensures { answer_of result ≡ form_b.gates memory.now instant }
{
    if !soundness::sound_form_b(memory) {
        return Err(Refusal::MemoryUnsound);
    }
    let m = memory[table::BEHIND_AT..].as_array().unwrap();
    ask_memory(m, instant)
}
