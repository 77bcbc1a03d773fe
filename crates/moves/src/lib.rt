// The moves between the old form of memory and form B (RULES 23): what a fitter's tool calls when a bridge in the field gets
// this endpoint, or its old firmware again. Memory is read and left as it is; the other form is written to a room.
#![tactic(auto)]

ghost use Rattle.std.specs.Prelude.{◌≡◌};
ghost use Rattle.meaning.specs.Moves.{forward, back};
ghost use Rattle.moves.specs.Moved.{number_of, length_of, Gives};

// How many octets the room of a move has, no more and no fewer: what the old form has, and what form B has.
pub const OLD_LENGTH: usize = table::MEMORY_LENGTH;

pub const FORM_B_LENGTH: usize = table::FORM_LENGTH;

// Why a move did nothing. The memory is not sound in the form that is to be read; the room is not exactly as long as the
// other form; the profile is not that of the old form; a change is in flight, which the old form cannot say.
#[derive(Clone, Copy)]
pub enum Refusal {
    MemoryUnsound,
    RoomNotExact,
    NotRelease18,
    InFlight,
}

// The number of a move's answer: 0 where it was done.
pub fn number(moved: Result<usize, Refusal>) -> usize
    ensures { result ≡ number_of moved }
{
    match moved {
        Ok(_) => 0,
        Err(Refusal::MemoryUnsound) => 1,
        Err(Refusal::RoomNotExact) => 16,
        Err(Refusal::NotRelease18) => 19,
        Err(Refusal::InFlight) => 17,
    }
}

// The length of what a move wrote; 0 where it wrote nothing.
pub fn written(moved: Result<usize, Refusal>) -> usize
    ensures { result ≡ length_of moved }
{
    moved.unwrap_or(0)
}

// From the old form to form B, of the same profile. A port that waits still waits, with nothing in flight.
pub fn forward(memory: &[u8], room: &mut [u8]) -> Result<usize, Refusal>
    ensures { Gives (forward memory.now room.old) result memory.now room.new }
{
    if !soundness::sound_old(memory) {
        return Err(Refusal::MemoryUnsound);
    }
    if room.len() != FORM_B_LENGTH {
        return Err(Refusal::RoomNotExact);
    }
    room[table::PROFILE_AT] = wire::RELEASE_18;
    Ok(octets::append(room, table::BEHIND_AT, memory))
}

// From form B to the old form. Behind the first octet of sound memory stand as many as memory has, so `unwrap` is proved, and
// tests nothing.
pub fn back(memory: &[u8], room: &mut [u8]) -> Result<usize, Refusal>
    ensures { Gives (back memory.now room.old) result memory.now room.new }
{
    if !soundness::sound_form_b(memory) {
        return Err(Refusal::MemoryUnsound);
    }
    if room.len() != OLD_LENGTH {
        return Err(Refusal::RoomNotExact);
    }
    if memory[table::PROFILE_AT] != wire::RELEASE_18 {
        return Err(Refusal::NotRelease18);
    }
    let m = memory[table::BEHIND_AT..].as_array().unwrap();
    if !memory::none_in_flight(m) {
        return Err(Refusal::InFlight);
    }
    Ok(octets::append(room, 0, m))
}
