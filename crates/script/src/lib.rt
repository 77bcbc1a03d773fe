// The instructions of a script: each is a call of the endpoint over what is lent, or shows or lends something, and prints
// a line.
#![tactic(auto)]

ghost use Rattle.std.specs.Prelude.{◌+◌, ◌≤◌, ◌<◌, ◌≡◌, true, length, take};
ghost use Rattle.meaning.specs.Delay.{delay};
ghost use Rattle.meaning.specs.FormB.{gates};
ghost use Rattle.octets.specs.Writing.{Wrote};
ghost use Rattle.page.specs.Printing.{HasRoom, Prints};
ghost use Rattle.endpoint.specs.Outcomes.{length_of, position_of, Gives};
ghost use Rattle.gates.specs.Answers.{answer_of};
ghost use Rattle.moves.specs.Moved as moved;
ghost use Rattle.text.specs.Lines.{octets_line, line};
ghost use Rattle.script.specs.Instructions.{body_right, anew, room_for, profile_asked, call_of, called, nanoseconds, instant, gates_line, moved_by};
ghost use Rattle.script.specs.Takes.{call_code, shown_code, move_code, Reads, told_answer, Ready, Does, Takes};

use gates::Gates;
use page::Page;

// Most octets that can be lent as memory.
pub const MOST_LENT: usize = 2200;
// Most octets of a room; a larger length counts as this.
pub const MOST_ROOM: usize = 8192;
// What the high four octets of eight are worth.
const HIGH: u64 = 1 << 32;
// The first number of 64 bits that stands for one below 0.
const SIGN: u64 = 1 << 63;
// What a room made anew holds.
const ROOM_FILL: u8 = 0xA5;

// How many octets are lent as memory, and how many the room that was made last has.
#[derive(Clone, Copy)]
pub struct Lent {
    pub memory: usize,
    pub room: usize,
}

// A call over memory. `MessageInFull` is a message whose line also tells the position.
#[derive(Clone, Copy)]
enum Call {
    Fresh,
    Message,
    LocalValue,
    Build,
    Expiry,
    MessageInFull,
}

// A move of memory from one form to the other.
#[derive(Clone, Copy)]
enum Move {
    Forward,
    Back,
}

// What is shown: what is lent as memory or as a room, a delay that is converted, which gates are open.
#[derive(Clone, Copy)]
enum Shown {
    Memory,
    Room,
    Delay,
    Gates,
}

// What an instruction does. `Lend` lends other memory from then on.
#[derive(Clone, Copy)]
enum Instruction {
    Call(Call),
    Lend,
    Show(Shown),
    Move(Move),
}

// The instruction of a code with a body of n octets; none where the code is not known, or the body has no right length.
fn read(code: u8, n: usize) -> Option<Instruction>
    ensures { Reads code n result }
{
    match code {
        0 => (n <= 1).then_some(Instruction::Call(Call::Fresh)),
        1 => (2 <= n).then_some(Instruction::Call(Call::Message)),
        2 => (2 <= n).then_some(Instruction::Call(Call::LocalValue)),
        3 => (n == 2).then_some(Instruction::Call(Call::Build)),
        4 => (n == 0).then_some(Instruction::Call(Call::Expiry)),
        5 => (n <= MOST_LENT).then_some(Instruction::Lend),
        6 => (n == 0).then_some(Instruction::Show(Shown::Memory)),
        7 => (n == 0).then_some(Instruction::Show(Shown::Room)),
        8 => (n == 8).then_some(Instruction::Show(Shown::Delay)),
        9 => (2 <= n).then_some(Instruction::Call(Call::MessageInFull)),
        10 => (n == 8).then_some(Instruction::Show(Shown::Gates)),
        11 => (n == 2).then_some(Instruction::Move(Move::Forward)),
        12 => (n == 2).then_some(Instruction::Move(Move::Back)),
        _ => None,
    }
}

// A room made anew, of the length that is asked for; its length.
fn make_room(room: &mut [u8], asked: usize) -> usize
    requires { length room.old ≡ 8192 }
    ensures { (result ≤ 8192) × Wrote room.old 0 (anew asked) result room.new }
{
    let n = asked.min(MOST_ROOM);
    room[..n].fill(ROOM_FILL);
    n
}

// The room that a call is lent: made anew where its instruction asks for one, else that of the last; its length.
fn room_for(room: &mut [u8], last: usize, call: Call, body: &[u8]) -> usize
    requires { (length room.old ≡ 8192) × (last ≤ 8192) × (body_right (call_code call) (length body.now) ≡ true) }
    ensures { (result ≤ 8192) × Wrote room.old 0 (room_for (call_of (call_code call)) body.now (take last room.old)) result room.new }
{
    match call {
        Call::Message | Call::MessageInFull | Call::Build => {
            make_room(room, octets::get16(body, 0))
        }
        Call::Fresh | Call::LocalValue | Call::Expiry => last,
    }
}

// The profile in which an instruction has memory made fresh: that of Release 18 where it names none.
fn profile_asked(body: &[u8]) -> u8
    ensures { result ≡ profile_asked body.now }
{
    body.first().copied().unwrap_or(endpoint::RELEASE_18)
}

// The calls over memory.
fn make_call(memory: &mut [u8], room: &mut [u8], call: Call, body: &[u8]) -> endpoint::Outcome
    requires { body_right (call_code call) (length body.now) ≡ true }
    ensures { Gives (called (call_of (call_code call)) body.now memory.old room.old) result memory.new room.new }
{
    match call {
        Call::Fresh => endpoint::make_fresh(memory, profile_asked(body)),
        Call::Message | Call::MessageInFull => endpoint::message(memory, &body[2..], room),
        Call::LocalValue => endpoint::local_value(memory, octets::get16(body, 0), &body[2..]),
        Call::Build => endpoint::build(memory, room),
        Call::Expiry => endpoint::expiry(memory),
    }
}

// The line of a call's outcome.
fn write_answer(page: &mut Page<'_>, call: Call, outcome: endpoint::Outcome, room: &[u8])
    requires { (length_of outcome ≤ length room.now) × (position_of outcome < 10000) × HasRoom page.old (length room.now + length room.now + 12) }
    ensures { Prints page.old (told_answer (call_code call) outcome room.now) page.new }
{
    match call {
        Call::MessageInFull => answers::write_in_full(page, outcome, room),
        _ => answers::write_outcome(page, outcome, room),
    }
}

// The instructions that are calls, over the memory that is lent.
fn take_call(
    memory: &mut [u8],
    room: &mut [u8],
    lent: Lent,
    made: Call,
    body: &[u8],
    page: &mut Page<'_>,
) -> Lent
    requires { Ready memory.old room.old lent page.old × (body_right (call_code made) (length body.now) ≡ true) }
    ensures { Does (call_code made) body.now memory.old room.old lent page.old page.new result memory.new room.new }
{
    let m = lent.memory;
    let n = room_for(room, lent.room, made, body);
    let outcome = make_call(&mut memory[..m], &mut room[..n], made, body);
    write_answer(page, made, outcome, &room[..n]);
    Lent { memory: m, room: n }
}

// The number that eight octets spell.
fn nanoseconds(body: &[u8]) -> u64
    requires { length body.now ≡ 8 }
    ensures { result ≡ nanoseconds body.now }
{
    octets::get32(body, 0) * HIGH + octets::get32(body, 4)
}

// The line of a delay, from its nanoseconds.
fn show_delay(page: &mut Page<'_>, body: &[u8])
    requires { (length body.now ≡ 8) × HasRoom page.old 18 }
    ensures { Prints page.old (octets_line (delay (nanoseconds body.now))) page.new }
{
    let stored = endpoint::delay_octets(delay::Nanoseconds(nanoseconds(body)));
    text::write_octets(page, &stored);
}

// The instant that eight octets spell. A cast takes what fits alone, so a number below 0 is counted back from -1.
fn instant(body: &[u8]) -> i64
    requires { length body.now ≡ 8 }
    ensures { result ≡ instant body.now }
{
    let n = nanoseconds(body);
    if n < SIGN {
        return n as i64;
    }
    -1 - ((u64::MAX - n) as i64)
}

// The line of the gates. Two steps and not `Ok(Gates::Open { .. })`: where that one does not match, the proof would not know which
// of the two failed.
fn write_gates(page: &mut Page<'_>, answer: Result<Gates, gates::Refusal>)
    requires { HasRoom page.old 50 }
    ensures { Prints page.old (gates_line (answer_of answer)) page.new }
{
    let number = gates::number(answer);
    let Ok(gates) = answer else {
        text::write_line(page, number, b"");
        return;
    };
    match gates {
        Gates::NotStarted => text::write_line(page, number, b""),
        Gates::Open {
            states,
            entry,
            nanoseconds,
        } => text::write_open_line(page, states, entry, nanoseconds),
    }
}

// The line of the gates at an instant.
fn show_gates(page: &mut Page<'_>, memory: &[u8], body: &[u8])
    requires { (length body.now ≡ 8) × HasRoom page.old 50 }
    ensures { Prints page.old (gates_line (gates memory.now (instant body.now))) page.new }
{
    write_gates(page, gates::gates_at(memory, instant(body)));
}

// The moves of memory into a room.
fn move_memory(memory: &[u8], room: &mut [u8], way: Move) -> Result<usize, moves::Refusal>
    ensures { moved.Gives (moved_by (move_code way) memory.now room.old) result memory.now room.new }
{
    match way {
        Move::Forward => moves::forward(memory, room),
        Move::Back => moves::back(memory, room),
    }
}

// The line of a move's answer.
fn write_move(page: &mut Page<'_>, answer: Result<usize, moves::Refusal>, room: &[u8])
    requires { (moved.length_of answer ≤ length room.now) × HasRoom page.old (length room.now + length room.now + 5) }
    ensures { Prints page.old (line (moved.number_of answer) (take (moved.length_of answer) room.now)) page.new }
{
    let n = moves::written(answer);
    text::write_line(page, moves::number(answer), &room[..n]);
}

// The instructions that move the memory that is lent, which stays as it is.
fn take_move(
    memory: &[u8],
    room: &mut [u8],
    lent: Lent,
    way: Move,
    body: &[u8],
    page: &mut Page<'_>,
) -> Lent
    requires { Ready memory.now room.old lent page.old × (body_right (move_code way) (length body.now) ≡ true) }
    ensures { Does (move_code way) body.now memory.now room.old lent page.old page.new result memory.now room.new }
{
    let m = lent.memory;
    let n = make_room(room, octets::get16(body, 0));
    let answer = move_memory(&memory[..m], &mut room[..n], way);
    write_move(page, answer, &room[..n]);
    Lent { memory: m, room: n }
}

// The line of an instruction that shows something; nothing that is lent changes.
fn show(page: &mut Page<'_>, memory: &[u8], room: &[u8], lent: Lent, shown: Shown, body: &[u8])
    requires { Ready memory.now room.now lent page.old × (body_right (shown_code shown) (length body.now) ≡ true) }
    ensures { Does (shown_code shown) body.now memory.now room.now lent page.old page.new lent memory.now room.now }
{
    match shown {
        Shown::Memory => text::write_octets(page, &memory[..lent.memory]),
        Shown::Room => text::write_octets(page, &room[..lent.room]),
        Shown::Delay => show_delay(page, body),
        Shown::Gates => show_gates(page, &memory[..lent.memory], body),
    }
}

// Takes one instruction: what is lent is lent to its call, and its line is printed. What is lent from then on; none where
// the instruction is faulty.
pub fn take_instruction(
    memory: &mut [u8],
    room: &mut [u8],
    lent: Lent,
    code: u8,
    body: &[u8],
    page: &mut Page<'_>,
) -> Option<Lent>
    requires { Ready memory.old room.old lent page.old }
    ensures { Takes code body.now memory.old room.old lent page.old page.new result memory.new room.new }
{
    match read(code, body.len())? {
        Instruction::Call(made) => Some(take_call(memory, room, lent, made, body, page)),
        Instruction::Lend => {
            let k = octets::append(memory, 0, body);
            text::write_lent(page, k);
            Some(Lent { memory: k, ..lent })
        }
        Instruction::Show(shown) => {
            show(page, memory, room, lent, shown, body);
            Some(lent)
        }
        Instruction::Move(way) => Some(take_move(memory, room, lent, way, body, page)),
    }
}
