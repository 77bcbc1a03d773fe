// The endpoint of a port: all that a host calls.
//
// The host keeps one port's memory in form B, 2,101 octets, and lends it to each call; where a call writes, it is lent a
// room as well. Nothing else is kept between calls, so whoever saves those octets has saved the port. Any lengths and any octets
// may be lent, in any order of calls: each call ends, and one that refuses changes no lent octet.
//
//   make_fresh    before the first use, and to begin anew, in the profile that the port's controllers speak: RELEASE_18 or
//                 RELEASE_16. It asks nothing of what the memory holds, so it also mends unsound memory
//   message       for each message that comes; a room of 4,096 octets takes every reply, which is then to be sent
//   local_value   when the port learns a value of its own, or learns that it has none
//   build         when there may be something to report; a room of 1,600 octets always serves. What it writes is to be
//                 sent and kept, and the host starts its timer
//   expiry        when that timer runs out: SendAgain has the kept octets sent again and the timer started anew, GivenUp
//                 drops them, and the next build tells again what they told. An acknowledgement that `message` answers
//                 with the reply 05 stops the timer
//   delay_octets  a delay in nanoseconds as the value that `local_value` takes for it
//
// The five calls answer in one way, by an `Outcome`: what was done, with the length of what now stands at the room's start, or
// why nothing was done. `number` gives the rules' number of it, `written` that length, and `position` where in the message a
// command breaks. The conversion refuses nothing and is lent nothing, so it gives the octets themselves.
//
// No call asks for anything: none has a `requires`. Each contract says by a definition of `meaning` under the call's name
// what is answered and what every lent octet holds afterwards, and allows one outcome alone (`one_outcome`, in `OneOutcome`).
//
// Each call tests what it is lent and lends the memory behind the first octet on, to a function that knows of no form, with the
// profile that this octet is where it decides something. Sound memory has that octet and 2,100 more, so each `unwrap` is proved, and
// tests nothing. That memory is sound is a clause of these functions and no invariant of a type: a type would owe it after every
// change within a call, a clause asks for it once.
#![tactic(auto)]

ghost use Rattle.std.specs.Prelude.{ℕ, ◌≤◌, ◌≡◌, true, [], length};
ghost use Rattle.meaning.specs.Octets.{octet};
ghost use Rattle.meaning.specs.Wire.{type_command, message_most};
ghost use Rattle.meaning.specs.Memory.{sound};
ghost use Rattle.meaning.specs.Profile.{sound_in};
ghost use Rattle.meaning.specs.Operation.{parse, is_some};
ghost use Rattle.meaning.specs.Delay.{delay};
ghost use Rattle.meaning.specs.Calls.{message, local_value, build, expiry};
ghost use Rattle.meaning.specs.FormB as form_b;
ghost use Rattle.endpoint.specs.declared.Refusal.TheVariants.{OperationMalformed};
ghost use Rattle.endpoint.specs.Outcomes.{number_of, length_of, position_of, Gives, acknowledgement, command};

use delay::Nanoseconds;
use notification::Moment;
use operation::Malformed;
use table::Memory;

// What a host lends and keeps, in octets: the memory of a port, in form B; the longest message that is not refused for its length; a
// room that takes every reply; a room that a notification is built in, and the longest notification, which is to be kept.
pub const MEMORY_LENGTH: usize = table::FORM_LENGTH;

pub const MESSAGE_MOST: usize = wire::MESSAGE_MOST;

pub const REPLY_MOST: usize = wire::REPLY_MOST;

pub const NOTIFICATION_ROOM: usize = wire::NOTIFICATION_ROOM;

pub const NOTIFICATION_MOST: usize = wire::NOTIFICATION_MOST;

// The profiles, of which a host names one when memory is made fresh, and where it stands then.
pub const RELEASE_18: u8 = wire::RELEASE_18;

pub const RELEASE_16: u8 = wire::RELEASE_16;

pub const PROFILE_AT: usize = table::PROFILE_AT;

// Where the cell of the running block stands in what a host keeps.
const RUNNING_CELL_AT: usize = table::BEHIND_AT + table::CELL_LENGTH * table::COMMIT;

// Where the running block stands there: an octet whose lowest bit says that one runs, two octets with its length, and
// the block itself.
pub const RUNNING_FLAGS_AT: usize = RUNNING_CELL_AT + table::FLAGS_AT;

pub const RUNNING_LENGTH_AT: usize = RUNNING_CELL_AT + table::SIZE_AT;

pub const RUNNING_AT: usize = table::BEHIND_AT + table::RUNNING_AT;

// What a call did: it wrote so many octets, 0 where it is lent no room; or a waiting notification is to be sent again, or has
// been given up.
#[derive(Clone, Copy)]
pub enum Done {
    Written(usize),
    SendAgain,
    GivenUp,
}

// Why nothing was done; a malformed operation with its position in the message.
#[derive(Clone, Copy)]
pub enum Refusal {
    MemoryUnsound,
    MessageEmpty,
    MessageTooLong,
    TypeUnknown,
    LengthWrong,
    OperationMalformed(usize),
    ReplyDoesNotFit,
    Idle,
    NothingPending,
    AlreadyWaiting,
    NotificationRoomTooSmall,
    NotPermitted,
    ProfileUnknown,
}

// A list of operations that breaks is refused with where it does.
impl From<Malformed> for Refusal {
    ghost from_gives = { λ m r. r ≡ OperationMalformed m.position };

    fn from(malformed: Malformed) -> Refusal {
        Refusal::OperationMalformed(malformed.position)
    }
}

// What a call answers.
pub type Outcome = Result<Done, Refusal>;

// The number of an outcome.
pub fn number(outcome: Outcome) -> usize
    ensures { result ≡ number_of outcome }
{
    match outcome {
        Ok(Done::Written(_)) => 0,
        Ok(Done::SendAgain) => 20,
        Ok(Done::GivenUp) => 21,
        Err(Refusal::MemoryUnsound) => 1,
        Err(Refusal::MessageEmpty) => 2,
        Err(Refusal::MessageTooLong) => 3,
        Err(Refusal::TypeUnknown) => 4,
        Err(Refusal::LengthWrong) => 5,
        Err(Refusal::OperationMalformed(_)) => 6,
        Err(Refusal::ReplyDoesNotFit) => 7,
        Err(Refusal::Idle) => 8,
        Err(Refusal::NothingPending) => 9,
        Err(Refusal::AlreadyWaiting) => 10,
        Err(Refusal::NotificationRoomTooSmall) => 11,
        Err(Refusal::NotPermitted) => 12,
        Err(Refusal::ProfileUnknown) => 18,
    }
}

// The length of what an outcome's call wrote; 0 where it wrote nothing.
pub fn written(outcome: Outcome) -> usize
    ensures { result ≡ length_of outcome }
{
    let Ok(Done::Written(n)) = outcome else {
        return 0;
    };
    n
}

// The position in the message of the first operation that is malformed or cut short; 0 where the number is not 6.
pub fn position(outcome: Outcome) -> usize
    ensures { result ≡ position_of outcome }
{
    let Err(Refusal::OperationMalformed(at)) = outcome else {
        return 0;
    };
    at
}

// An acknowledgement (RULES 14.11).
fn acknowledge(memory: &mut Memory, room: &mut [u8]) -> Outcome
    requires { sound memory.old ≡ true }
    ensures { Gives (acknowledgement memory.old room.old) result memory.new room.new }
{
    if !memory::waiting(memory) {
        return Err(Refusal::Idle);
    }
    if room.is_empty() {
        return Err(Refusal::ReplyDoesNotFit);
    }
    room[0] = wire::TYPE_NOTIFY_COMPLETE;
    notification::end_wait(memory, Moment::Acknowledged);
    Ok(Done::Written(1))
}

// A whole list of operations, carried out on a working copy, which is written back once the reply fits (RULES 10.13, 10.14).
fn carry_out(memory: &mut Memory, list: &[u8], room: &mut [u8], profile: u8) -> Outcome
    requires { (sound memory.old ≡ true) × (is_some (parse profile list.now) ≡ true) × (length list.now ≤ message_most) }
    ensures { Gives (command profile memory.old list.now room.old) result memory.new room.new }
{
    let mut copy = [0u8; table::MEMORY_LENGTH];
    let taken = tally::take(memory, list, &mut copy, profile);
    let t = taken.tally;
    let n = t.reply_length(profile);
    if !t.fits(n, room.len()) {
        return Err(Refusal::ReplyDoesNotFit);
    }
    reply::write(memory, list, t, taken.changed, &mut copy, room, profile);
    octets::renew(memory, &copy, taken.changed);
    Ok(Done::Written(n))
}

// A message of type 01: its length, and whether every operation is whole.
fn take_command(memory: &mut Memory, sent: &[u8], room: &mut [u8], profile: u8) -> Outcome
    requires { (sound_in profile memory.old ≡ true) × (1 ≤ length sent.now) × (length sent.now ≤ message_most) × (octet sent.now 0 ≡ type_command) }
    ensures { Gives (message profile memory.old sent.now room.old) result memory.new room.new }
{
    if sent.len() < wire::COMMAND_HEAD {
        return Err(Refusal::LengthWrong);
    }
    let n = octets::get16(sent, 1);
    if n == 0 {
        return Err(Refusal::LengthWrong);
    }
    if sent.len() < wire::COMMAND_HEAD + n {
        return Err(Refusal::LengthWrong);
    }
    let list = &sent[wire::COMMAND_HEAD..wire::COMMAND_HEAD + n];
    operation::whole(list, profile)?;
    carry_out(memory, list, room, profile)
}

// A message: a command or an acknowledgement.
fn take_message(memory: &mut Memory, sent: &[u8], room: &mut [u8], profile: u8) -> Outcome
    requires { sound_in profile memory.old ≡ true }
    ensures { Gives (message profile memory.old sent.now room.old) result memory.new room.new }
{
    if sent.is_empty() {
        return Err(Refusal::MessageEmpty);
    }
    if MESSAGE_MOST < sent.len() {
        return Err(Refusal::MessageTooLong);
    }
    match sent[0] {
        wire::TYPE_COMMAND => take_command(memory, sent, room, profile),
        wire::TYPE_NOTIFY_ACK => acknowledge(memory, room),
        _ => Err(Refusal::TypeUnknown),
    }
}

// A local value, which is the same in each profile.
fn take_value(memory: &mut Memory, name: usize, value: &[u8]) -> Outcome
    requires { sound memory.old ≡ true }
    ensures { (p : ℕ) → sound_in p memory.old ≡ true → Gives (local_value p memory.old name value.now) result memory.new [] }
{
    if !local::permitted(name, value) {
        return Err(Refusal::NotPermitted);
    }
    local::store(memory, table::place_of(name), value);
    Ok(Done::Written(0))
}

// A notification of all that is pending.
fn build_due(memory: &mut Memory, room: &mut [u8], profile: u8) -> Outcome
    requires { sound_in profile memory.old ≡ true }
    ensures { Gives (build profile memory.old room.old) result memory.new room.new }
{
    if room.len() < NOTIFICATION_ROOM {
        return Err(Refusal::NotificationRoomTooSmall);
    }
    if memory::waiting(memory) {
        return Err(Refusal::AlreadyWaiting);
    }
    let due = notification::count(memory);
    if due.values + due.absent == 0 {
        return Err(Refusal::NothingPending);
    }
    let end = notification::write(memory, due, room, profile);
    notification::begin_wait(memory);
    Ok(Done::Written(end))
}

// A timer expiry, which is the same in each profile.
fn take_expiry(memory: &mut Memory) -> Outcome
    requires { sound memory.old ≡ true }
    ensures { (p : ℕ) → sound_in p memory.old ≡ true → Gives (expiry p memory.old) result memory.new [] }
{
    if !memory::waiting(memory) {
        return Err(Refusal::Idle);
    }
    let n = memory::expiries(memory);
    if n < wire::EXPIRIES_MOST {
        memory::set_timer(memory, table::WAITING, n + 1);
        return Ok(Done::SendAgain);
    }
    notification::end_wait(memory, Moment::GivenUp);
    Ok(Done::GivenUp)
}

// A message taken: a command or an acknowledgement.
pub fn message(memory: &mut [u8], sent: &[u8], room: &mut [u8]) -> Outcome
    ensures { Gives (form_b.message memory.old sent.now room.old) result memory.new room.new }
{
    if !soundness::sound_form_b(memory) {
        return Err(Refusal::MemoryUnsound);
    }
    let (profile, rest) = memory.split_first_mut().unwrap();
    take_message(rest.as_mut_array().unwrap(), sent, room, *profile)
}

// A local value taken: a name that the port sets, and its value, or none to make it absent.
pub fn local_value(memory: &mut [u8], name: usize, value: &[u8]) -> Outcome
    ensures { Gives (form_b.local_value memory.old name value.now) result memory.new [] }
{
    if !soundness::sound_form_b(memory) {
        return Err(Refusal::MemoryUnsound);
    }
    let (_, rest) = memory.split_first_mut().unwrap();
    take_value(rest.as_mut_array().unwrap(), name, value)
}

// A notification built of all that is pending. It is to be sent, and waits for its acknowledgement.
pub fn build(memory: &mut [u8], room: &mut [u8]) -> Outcome
    ensures { Gives (form_b.build memory.old room.old) result memory.new room.new }
{
    if !soundness::sound_form_b(memory) {
        return Err(Refusal::MemoryUnsound);
    }
    let (profile, rest) = memory.split_first_mut().unwrap();
    build_due(rest.as_mut_array().unwrap(), room, *profile)
}

// A timer expiry taken, of the timer that runs from the sending of a notification.
pub fn expiry(memory: &mut [u8]) -> Outcome
    ensures { Gives (form_b.expiry memory.old) result memory.new [] }
{
    if !soundness::sound_form_b(memory) {
        return Err(Refusal::MemoryUnsound);
    }
    let (_, rest) = memory.split_first_mut().unwrap();
    take_expiry(rest.as_mut_array().unwrap())
}

// Memory made fresh in a profile, whatever it holds.
pub fn make_fresh(memory: &mut [u8], profile: u8) -> Outcome
    ensures { Gives (form_b.make_fresh memory.old profile) result memory.new [] }
{
    if memory.len() != MEMORY_LENGTH {
        return Err(Refusal::MemoryUnsound);
    }
    if !table::is_profile(profile) {
        return Err(Refusal::ProfileUnknown);
    }
    let (first, rest) = memory.split_first_mut().unwrap();
    *first = profile;
    memory::make_fresh(rest.as_mut_array().unwrap());
    Ok(Done::Written(0))
}

// The conversion of a delay to the eight octets of its value, the LOW octet first.
pub fn delay_octets(time: Nanoseconds) -> [u8; 8]
    ensures { result ≡ delay time.0 }
{
    time.to_octets()
}
