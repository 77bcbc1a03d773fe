// A reply written once the tally says that all of it fits: the names, what stands before the records of each kind, and
// then, in one pass over the operations, the records.
#![tactic(auto)]

ghost use Rattle.std.specs.Prelude.{ℕ, ◌+◌, ◌≤◌, ◌<◌, ◌≡◌, ◌≢◌, true, ◌++◌, length, drop};
ghost use Rattle.meaning.specs.Wire.{element_capability, count_most};
ghost use Rattle.meaning.specs.Operation.{parse, or_none};
ghost use Rattle.meaning.specs.Step.{after};
ghost use Rattle.meaning.specs.Reply.{all_names, element, complete};
ghost use Rattle.octets.specs.Writing.{Wrote};
ghost use Rattle.octets.specs.Filling.{Apart, Filled};
ghost use Rattle.tally.specs.Tallies.{reply_length, tally_fits};
ghost use Rattle.section.specs.Kinds.{order, records_of};
ghost use Rattle.section.specs.Places.{place_of};
ghost use Rattle.reply.specs.Sections.{opening, second_count, long_length, preface, begins, Ready, Fitting};

use section::Places;
use table::Memory;
use tally::{Count, Tally};

// The head of an element, where it is needed, and the count of its first records. Whether it is needed is asked once for both of
// the element's counts, which the tally has in any case: neither is a value that is there only where the flag is set.
fn write_opening(needed: bool, id: u8, n: usize, count: u32, out: &mut [u8], at: usize) -> usize
    requires { (needed ≡ true → n < 65536) × (count ≤ count_most) × (at + length (opening needed id n count) ≤ length out.old) }
    ensures { Wrote out.old at (opening needed id n count) result out.new }
{
    if !needed {
        return at;
    }
    let first = records::write_head(out, at, id, n);
    records::write_count(out, first, count as usize)
}

// The count of the second records in an element, where it is needed.
fn write_second_count(needed: bool, count: u32, out: &mut [u8], at: usize) -> usize
    requires { (count ≤ count_most) × (at + length (second_count needed count) ≤ length out.old) }
    ensures { Wrote out.old at (second_count needed count) result out.new }
{
    if !needed {
        return at;
    }
    records::write_count(out, at, count as usize)
}

// The octets of the long updates, where there are any.
fn write_longs(longs: Count, out: &mut [u8], at: usize) -> usize
    requires { (longs.count ≢ 0 → longs.octets < 65536) × (at + length (long_length longs) ≤ length out.old) }
    ensures { Wrote out.old at (long_length longs) result out.new }
{
    if longs.count == 0 {
        return at;
    }
    octets::put16(out, at, longs.octets as usize);
    at + 2
}

// The prefaces, what stands before the records of each kind; where the records go. The tally tells how long each section is, and so
// where the next begins. They are the same in each profile: that the reply fits is asked of any.
fn write_prefaces(t: Tally, out: &mut [u8], at: usize) -> Places
    requires { ((p : ℕ) × (tally_fits (reply_length p t) (length out.old) t ≡ true)) × Apart 0 order (begins t at) (preface t) (length out.old) }
    ensures { Filled order (begins t at) (preface t) out.old (place_of result) out.new }
{
    let reads = t.any_read();
    let sets = t.any_set();
    let n = t.read_octets();
    let values = write_opening(reads, wire::ELEMENT_STATUS, n, t.values.count, out, at);
    let second = values + t.values.octets as usize;
    let read_errors = write_second_count(reads, t.read_errors.count, out, second);
    let third = read_errors + t.read_errors.octets as usize;
    let k = t.set_octets();
    let updates = write_opening(
        sets,
        wire::ELEMENT_UPDATE_RESULT,
        k,
        t.updates.count,
        out,
        third,
    );
    let fourth = updates + t.updates.octets as usize;
    let update_errors = write_second_count(sets, t.update_errors.count, out, fourth);
    let fifth = update_errors + t.update_errors.octets as usize;
    let long_updates = write_longs(t.long_updates, out, fifth);
    Places {
        values,
        read_errors,
        updates,
        update_errors,
        long_updates,
    }
}

// Element 70, where the names are asked.
fn write_capabilities(needed: bool, out: &mut [u8], at: usize, profile: u8) -> usize
    requires { at + length (element element_capability needed (all_names profile)) ≤ length out.old }
    ensures { Wrote out.old at (element element_capability needed (all_names profile)) result out.new }
{
    if !needed {
        return at;
    }
    let n = records::names_length(profile);
    let first = records::write_head(out, at, wire::ELEMENT_CAPABILITY, n);
    records::write_names(out, first, profile)
}

// The whole reply at the start of a room that it fits. The copy holds afterwards what the operations leave; it is filled anew
// where they have changed it.
pub fn write(
    m: &Memory,
    list: &[u8],
    t: Tally,
    changed: bool,
    copy: &mut Memory,
    out: &mut [u8],
    profile: u8,
)
    requires { Ready profile m.now list.now copy.old changed × Fitting profile m.now list.now t (length out.old) }
    ensures copy_after { copy.new ≡ after profile m.now (or_none (parse profile list.now)) }
    ensures out_after { out.new ≡ complete profile (records_of profile m.now list.now) ++ drop (length (complete profile (records_of profile m.now list.now))) out.old }
{
    let names = records::write_octet(out, 0, wire::TYPE_COMPLETE);
    let capabilities = t.capabilities;
    let at = write_capabilities(capabilities, out, names, profile);
    let starts = write_prefaces(t, out, at);
    octets::renew(copy, m, changed);
    section::write(list, starts, copy, out, profile);
}
