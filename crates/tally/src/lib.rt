// What a reply will hold, counted before any of it is written: whether names are asked, and for each kind of record how
// many there are and their octets. The operations act on the working copy; the numbers are exact.
#![tactic(auto)]

ghost use Rattle.std.specs.Prelude.{◌^◌, ◌≤◌, ◌<◌, ◌≡◌, true, length};
ghost use Rattle.meaning.specs.Table.{entry_count};
ghost use Rattle.meaning.specs.Wire.{message_most, reply_most};
ghost use Rattle.meaning.specs.Memory.{sound};
ghost use Rattle.meaning.specs.Operation.{parse, is_some, or_none};
ghost use Rattle.meaning.specs.Step.{shown, after, answers};
ghost use Rattle.meaning.specs.Calls.{records};
ghost use Rattle.operation.specs.Handing.{Inside};
ghost use Rattle.command.specs.Answers.{InTable, any_change};
ghost use Rattle.tally.specs.Tallies.{grown, tally_of, tallied, Below, any_read, any_set, read_octets, set_octets, element_length, reply_length, tally_fits};

use command::Answer;
use operation::{Op, Reader};
use table::Memory;

// The records of a kind: how many, and their octets. Both in four octets, since a tally stands on the stack of a message.
#[derive(Clone, Copy, Default)]
pub struct Count {
    pub count: u32,
    pub octets: u32,
}

impl Count {
    // One record more, of so many octets.
    #[tactic(auto, unfolding(crate::specs::Tallies::grown))]
    fn add(&mut self, octets: usize)
        requires { (self.old.count ≤ 16777216) × (self.old.octets ≤ 16777216) × (octets ≤ reply_most) }
        ensures { self.new ≡ grown self.old 1 octets }
    {
        self.count += 1;
        self.octets += octets as u32;
    }
}

// What a reply will hold.
#[derive(Clone, Copy, Default)]
pub struct Tally {
    pub capabilities: bool,
    pub values: Count,
    pub read_errors: Count,
    pub updates: Count,
    pub update_errors: Count,
    pub long_updates: Count,
}

// A tally, and whether an operation may have changed memory: where none may, the copy still is the memory.
#[derive(Clone, Copy)]
pub struct Taken {
    pub tally: Tally,
    pub changed: bool,
}

// The octets that a read of the value at a place shows: the two sums for 8001.
fn shown_length(m: &Memory, k: usize, profile: u8) -> usize
    requires { k < entry_count }
    ensures { (result ≡ length (shown profile m.now k)) × (result ≤ 470) }
{
    if k == table::COMMIT {
        return schedule::SUMS_LENGTH;
    }
    memory::sent_body(m, k, profile).len()
}

// Octets of an element with contents of n octets, where it is needed.
#[tactic(auto, unfolding(crate::specs::Tallies::element_length))]
fn element_length(needed: bool, n: usize) -> usize
    requires { n < 2 ^ 34 }
    ensures { (result ≡ element_length needed n) × (result < 2 ^ 35) }
{
    if needed { wire::ELEMENT_HEAD + n } else { 0 }
}

impl Tally {
    // The record of one answer to an operation more.
    fn add(&mut self, m: &Memory, op: Op, a: Answer, profile: u8)
        requires { Below 16777216 self.old × Inside message_most op × InTable a }
        ensures { self.new ≡ tallied profile m.now self.old op a }
    {
        match a {
            Answer::Names => self.capabilities = true,
            Answer::Value(k) => self
                .values
                .add(wire::VALUE_HEAD + shown_length(m, k as usize, profile)),
            Answer::ReadError(_) => self.read_errors.add(wire::ERROR_LENGTH),
            Answer::Update => {
                let size = op.size();
                if size <= wire::SHORT_MOST {
                    self.updates.add(wire::SHORT_HEAD + size);
                } else {
                    self.long_updates.add(wire::VALUE_HEAD + size);
                }
            }
            Answer::UpdateError(_) => self.update_errors.add(wire::ERROR_LENGTH),
            Answer::Silent => {}
        }
    }

    // Whether a read was asked.
    #[tactic(auto, unfolding(crate::specs::Tallies::any_read))]
    pub fn any_read(self) -> bool
        ensures { result ≡ any_read self }
    {
        self.values.count as usize + self.read_errors.count as usize != 0
    }

    // Whether a set was asked.
    #[tactic(auto, unfolding(crate::specs::Tallies::any_set))]
    pub fn any_set(self) -> bool
        ensures { result ≡ any_set self }
    {
        self.updates.count as usize
            + self.update_errors.count as usize
            + self.long_updates.count as usize
            != 0
    }

    // Octets of the contents of element 71.
    #[tactic(auto, unfolding(crate::specs::Tallies::read_octets))]
    pub fn read_octets(self) -> usize
        ensures { (result ≡ read_octets self) × (result < 2 ^ 34) }
    {
        2 + self.values.octets as usize + self.read_errors.octets as usize
    }

    // Octets of the contents of element 72: the long updates, with their length, where there are any.
    #[tactic(auto, unfolding(crate::specs::Tallies::set_octets, crate::specs::Tallies::long_octets))]
    pub fn set_octets(self) -> usize
        ensures { (result ≡ set_octets self) × (result < 2 ^ 34) }
    {
        let n = 2 + self.updates.octets as usize + self.update_errors.octets as usize;
        if self.long_updates.count == 0 {
            return n;
        }
        n + (2 + self.long_updates.octets as usize)
    }

    // Octets of the whole reply.
    #[tactic(auto, unfolding(crate::specs::Tallies::reply_length))]
    pub fn reply_length(self, profile: u8) -> usize
        ensures { result ≡ reply_length profile self }
    {
        let names = element_length(self.capabilities, records::names_length(profile));
        let reads = element_length(self.any_read(), self.read_octets());
        let sets = element_length(self.any_set(), self.set_octets());
        1 + names + reads + sets
    }

    // Whether a reply of n octets fits its room and is no longer than any may be, and no count is over what its octet can tell.
    pub fn fits(self, n: usize, room: usize) -> bool
        ensures { result ≡ tally_fits n room self }
    {
        let sets = (self.updates.count <= wire::COUNT_MOST)
            & (self.update_errors.count <= wire::COUNT_MOST);
        let counts = (self.values.count <= wire::COUNT_MOST)
            & ((self.read_errors.count <= wire::COUNT_MOST) & sets);
        (n <= room) & ((n <= wire::REPLY_MOST) & counts)
    }
}

// The tally of a whole list of operations. The copy is filled from the memory and holds afterwards what they leave.
pub fn take(m: &Memory, list: &[u8], copy: &mut Memory, profile: u8) -> Taken
    requires { (sound m.now ≡ true) × (is_some (parse profile list.now) ≡ true) × (length list.now ≤ message_most) }
    ensures tally_value { result.tally ≡ tally_of (records profile m.now (or_none (parse profile list.now))) }
    ensures below { Below 16777216 result.tally }
    ensures copy_after { copy.new ≡ after profile m.now (or_none (parse profile list.now)) }
    ensures changed_value { result.changed ≡ any_change (answers profile m.now (or_none (parse profile list.now))) }
{
    octets::renew(copy, m, true);
    let mut t = Tally::default();
    let mut changed = false;
    let mut reader = Reader::new(list);
    // Each code of a whole list is one that its profile has, so none is asked for: what reads it stays small.
    while let Ok(Some(op)) = reader.next_operation(wire::RELEASE_18) {
        let a = command::carry_out(copy, list, op, profile);
        t.add(copy, op, a, profile);
        changed |= command::changes(a);
    }
    Taken { tally: t, changed }
}
