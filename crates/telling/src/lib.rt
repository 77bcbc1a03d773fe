// What a captured message prints (RULES 21): its type and a line for each record that it hands out, or the number that it is
// refused with. The lines are printed on a page, which has to take those of the longest message.
#![tactic(auto)]

ghost use Rattle.std.specs.Prelude.{◌+◌, ◌*◌, ◌≤◌, ◌≡◌, length};
ghost use Rattle.meaning.specs.Octets.{flat};
ghost use Rattle.page.specs.Printing.{HasRoom, Prints};
ghost use Rattle.words.specs.Lines.{record_line, message_lines, record_size};
ghost use Rattle.capture.specs.Handing.{record_of, Inside};
ghost use Rattle.telling.specs.Remaining.{head_line, sizes, remaining, Ready};

use capture::{Handed, Record};
use page::Page;
use words::{Failing, Fixed, Valued};

// Octets that the lines of a message may take: 24 for each octet of a record, of which there are no more than the longest
// message has; and the first line.
pub const LINES: usize = 24 * wire::REPLY_MOST + 9;

// The line of a record.
fn write_record(page: &mut Page<'_>, message: &[u8], told: Record)
    requires { Inside message.now told × HasRoom page.old (24 * record_size (record_of message.now told)) }
    ensures { Prints page.old (record_line (record_of message.now told)) page.new }
{
    match told {
        Record::Name(name) => words::write_name(page, name),
        Record::Value { name, value } => {
            words::write_held(page, Valued::Value, name, &message[value.from..value.to])
        }
        Record::ReadError { name, cause } => {
            words::write_failed(page, Failing::ReadError, name, cause)
        }
        Record::Update { name, value } => {
            words::write_held(page, Valued::Update, name, &message[value.from..value.to])
        }
        Record::UpdateError { name, cause } => {
            words::write_failed(page, Failing::UpdateError, name, cause)
        }
        Record::LongUpdate { name, value } => {
            words::write_held(
                page,
                Valued::LongUpdate,
                name,
                &message[value.from..value.to],
            )
        }
    }
}

// The lines of the records from one that has been handed out on.
fn write_records(page: &mut Page<'_>, message: &[u8], first: Handed)
    requires { Ready message.now first × HasRoom page.old (24 * sizes (remaining message.now first)) }
    ensures { Prints page.old (flat record_line (remaining message.now first)) page.new }
{
    let mut handed = first;
    // Two patterns and not `Ok(Some(..))`: of what that one leaves over the proof is told too little.
    while let Ok(next) = handed {
        let Some((told, left)) = next else {
            return;
        };
        write_record(page, message, told);
        handed = capture::next(message, left);
    }
}

// The first line of a message that is accepted: its type.
fn write_head(page: &mut Page<'_>, message: &[u8])
    requires { (1 ≤ length message.now) × HasRoom page.old 9 }
    ensures { Prints page.old (head_line message.now) page.new }
{
    if message[0] == wire::TYPE_COMPLETE {
        words::write_fixed(page, Fixed::Complete);
        return;
    }
    words::write_fixed(page, Fixed::Notify);
}

// All lines of a message. Never inlined: in what answers a line it would keep that from being inlined, and each blank line would pay
// for a call.
#[inline(never)]
pub fn tell(page: &mut Page<'_>, message: &[u8])
    requires { HasRoom page.old 98313 }
    ensures { Prints page.old (message_lines message.now) page.new }
{
    let first = capture::first(message);
    if let Err(refusal) = first {
        text::write_line(page, refusal.number(), &[]);
        return;
    }
    write_head(page, message);
    write_records(page, message, first);
}
