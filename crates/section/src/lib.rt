// The records of a reply, each written at the place of its kind: the operations of a list run on the working copy, and what
// each answers goes behind the records of its kind before it. So no record is kept anywhere but in the room.
#![tactic(auto)]

ghost use Rattle.std.specs.Prelude.{◌+◌, ◌≤◌, ◌<◌, ◌≡◌, true, length};
ghost use Rattle.meaning.specs.Table.{entry_count};
ghost use Rattle.meaning.specs.Wire.{message_most};
ghost use Rattle.meaning.specs.Memory.{sound};
ghost use Rattle.meaning.specs.Operation.{parse, is_some, or_none};
ghost use Rattle.meaning.specs.Step.{shown, after};
ghost use Rattle.meaning.specs.Reply.{held_octets};
ghost use Rattle.operation.specs.Handing.{Inside};
ghost use Rattle.octets.specs.Writing.{Wrote};
ghost use Rattle.octets.specs.Filling.{fill, Apart, Filled};
ghost use Rattle.command.specs.Answers.{InTable};
ghost use Rattle.section.specs.Kinds.{order, sections};
ghost use Rattle.section.specs.Places.{place_of, shares};
ghost use Rattle.section.specs.Knowing.{running_sums, Knows, kept_after, learnt_from};

use command::Answer;
use operation::{Op, Reader};
use schedule::Sums;
use table::Memory;

// ---- the running block's sums, which many reads may ask for

// The sums of the running block; where they are known, the block is not looked at.
fn running_sums(m: &Memory, known: Option<Sums>) -> Sums
    requires { Knows m.now known }
    ensures { result ≡ running_sums m.now }
{
    match known {
        Some(sums) => sums,
        None => schedule::sums_of(memory::body(m, table::COMMIT)),
    }
}

// What is still known after an operation: no other than a set of 8001 changes the running block.
fn kept(known: Option<Sums>, op: Op) -> Option<Sums>
    ensures { result ≡ kept_after op known }
{
    let Op::Set(v) = op else {
        return known;
    };
    if v.name == table::COMMIT_NAME {
        None
    } else {
        known
    }
}

// What is known where an operation has this answer: a read of 8001 finds the sums for those after it.
fn learnt(m: &Memory, a: Answer, known: Option<Sums>) -> Option<Sums>
    requires { Knows m.now known }
    ensures { result ≡ learnt_from m.now a known }
{
    let Answer::Value(k) = a else {
        return known;
    };
    if k as usize != table::COMMIT {
        return known;
    }
    Some(running_sums(m, known))
}

// ---- records

// The value that a read of a place shows (RULES 11.1, 11.2).
fn write_value(
    m: &Memory,
    k: usize,
    name: usize,
    known: Option<Sums>,
    out: &mut [u8],
    at: usize,
    profile: u8,
) -> usize
    requires { (k < entry_count) × (name < 65536) × Knows m.now known × (at + length (held_octets (record { name = name; value = shown profile m.now k })) ≤ length out.old) }
    ensures { Wrote out.old at (held_octets (record { name = name; value = shown profile m.now k })) result out.new }
{
    if k != table::COMMIT {
        let v = memory::sent_body(m, k, profile);
        return records::write_held(out, at, name, v);
    }
    let s = running_sums(m, known);
    let from = records::write_value_head(out, at, name, schedule::SUMS_LENGTH);
    let end = from + schedule::SUMS_LENGTH;
    schedule::write_sums(s, &mut out[from..end]);
    end
}

// Where the next record of each kind goes. It is not one generic struct with the counts of a tally: these have `capabilities` beside
// them, and each use of a count would name the struct between (`t.records.values.count`).
#[derive(Clone, Copy)]
pub struct Places {
    pub values: usize,
    pub read_errors: usize,
    pub updates: usize,
    pub update_errors: usize,
    pub long_updates: usize,
}

impl Places {
    // The record of an answer to an operation, at the place of its kind, which then is behind it.
    fn put(
        &mut self,
        m: &Memory,
        list: &[u8],
        op: Op,
        a: Answer,
        known: Option<Sums>,
        out: &mut [u8],
        profile: u8,
    )
        requires { (length list.now ≤ message_most) × Inside (length list.now) op × InTable a × Knows m.now known × Apart 0 order (place_of self.old) (shares profile m.now list.now op a) (length out.old) }
        ensures { Filled order (place_of self.old) (shares profile m.now list.now op a) out.old (place_of self.new) out.new }
    {
        let name = op.name();
        match a {
            Answer::Value(k) => {
                self.values = write_value(m, k as usize, name, known, out, self.values, profile);
            }
            Answer::ReadError(cause) => {
                self.read_errors = records::write_failed(out, self.read_errors, name, cause);
            }
            Answer::Update => {
                let from = op.start();
                let v = &list[from..from + op.size()];
                if v.len() <= wire::SHORT_MOST {
                    self.updates = records::write_short(out, self.updates, name, v);
                } else {
                    self.long_updates = records::write_held(out, self.long_updates, name, v);
                }
            }
            Answer::UpdateError(cause) => {
                self.update_errors = records::write_failed(out, self.update_errors, name, cause);
            }
            Answer::Names | Answer::Silent => {}
        }
    }
}

// The records of all operations, each at the place of its kind. The copy is lent as the memory is, and holds afterwards what
// the operations leave.
pub fn write(list: &[u8], starts: Places, copy: &mut Memory, out: &mut [u8], profile: u8)
    requires { (sound copy.old ≡ true) × (is_some (parse profile list.now) ≡ true) × (length list.now ≤ message_most) × Apart 0 order (place_of starts) (sections profile copy.old list.now) (length out.old) }
    ensures copy_after { copy.new ≡ after profile copy.old (or_none (parse profile list.now)) }
    ensures out_after { out.new ≡ fill order (place_of starts) (sections profile copy.old list.now) out.old }
{
    let mut places = starts;
    let mut known: Option<Sums> = None;
    let mut reader = Reader::new(list);
    // Every code there is, as in `tally::take`.
    while let Ok(Some(op)) = reader.next_operation(wire::RELEASE_18) {
        let a = command::carry_out(copy, list, op, profile);
        known = learnt(copy, a, kept(known, op));
        places.put(copy, list, op, a, known, out, profile);
    }
}
