// Captured messages, replies and notifications, read (RULES 20): `first` says whether a message is accepted and hands out its
// first record, `next` each further one. Values stay in the message; a record tells where. All octets may be lent and every
// cursor passed, also one that another message gave: what is handed out then is what the definition finds in its spans.
#![tactic(auto)]

ghost use Rattle.std.specs.Prelude.{◌≤◌, ◌<◌, ◌≡◌, length};
ghost use Rattle.meaning.specs.Capture.{update_cause, read_cause};
ghost use Rattle.capture.specs.Opening.{nothing_left, opened_names, opened_status, longs_at, opened_result, opened_reply, opened_notification};
ghost use Rattle.capture.specs.Handing.{refusal_number, number_of, name_in, held_in, failed_in, handed_at, handed_first};

use contents::Span;

// What is left to hand out of a message: of each kind of record the octets that are left.
#[derive(Clone, Copy)]
pub struct Cursor {
    pub names: Span,
    pub values: Span,
    pub read_errors: Span,
    pub updates: Span,
    pub update_errors: Span,
    pub long_updates: Span,
}

// A record: a name; a name and where its value stands; a name and a cause.
#[derive(Clone, Copy)]
pub enum Record {
    Name(usize),
    Value { name: usize, value: Span },
    ReadError { name: usize, cause: u8 },
    Update { name: usize, value: Span },
    UpdateError { name: usize, cause: u8 },
    LongUpdate { name: usize, value: Span },
}

// Why a message is refused.
#[derive(Clone, Copy, PartialEq, Eq)]
pub enum Refusal {
    MessageEmpty,
    MessageTooLong,
    TypeUnknown,
    CutShort,
}

impl Refusal {
    // Its number.
    pub fn number(self) -> usize
        ensures { result ≡ refusal_number self }
    {
        match self {
            Refusal::MessageEmpty => 2,
            Refusal::MessageTooLong => 3,
            Refusal::TypeUnknown => 13,
            Refusal::CutShort => 14,
        }
    }
}

// What is handed out: a record and what is left behind it, or the end; or why the message is refused.
pub type Handed = Result<Option<(Record, Cursor)>, Refusal>;

// The number of what is handed out: 0 unless the message is refused.
pub fn number(handed: Handed) -> usize
    ensures { result ≡ number_of handed }
{
    match handed {
        Ok(_) => 0,
        Err(refusal) => refusal.number(),
    }
}

// ---- what is left to hand out at first, or nothing where something is cut short or left over

// Of a message in which no element has been read yet.
fn nothing_left() -> Cursor
    ensures { result ≡ nothing_left }
{
    let none = Span { from: 0, to: 0 };
    Cursor {
        names: none,
        values: none,
        read_errors: none,
        updates: none,
        update_errors: none,
        long_updates: none,
    }
}

// With the names of element 70, if it is read. An element that is read stands behind the type, so not at 0.
fn open_names(c: Cursor, p: Span) -> Option<Cursor>
    requires { p.from ≤ p.to }
    ensures { result ≡ opened_names c p }
{
    if p.to == 0 {
        return Some(c);
    }
    if (p.to - p.from) % wire::NAME_LENGTH != 0 {
        return None;
    }
    Some(Cursor { names: p, ..c })
}

// With the values and errors of element 71, if it is read, or of a notification.
fn open_status(s: &[u8], c: Cursor, p: Span) -> Option<Cursor>
    requires { (p.from ≤ p.to) × (p.to ≤ length s.now) }
    ensures { result ≡ opened_status s.now c p }
{
    if p.to == 0 {
        return Some(c);
    }
    let counted = contents::counted_in(s, p, 2)?;
    if counted.errors.to != p.to {
        return None;
    }
    Some(Cursor {
        values: counted.values,
        read_errors: counted.errors,
        ..c
    })
}

// The long updates behind the errors of element 72, none where nothing stands there; or they are not whole.
fn longs_at(s: &[u8], at: usize, to: usize) -> Option<Span>
    requires { (at ≤ to) × (to ≤ length s.now) }
    ensures { result ≡ longs_at s.now at to }
{
    if at == to {
        return Some(Span { from: to, to });
    }
    let p = contents::sized_at(s, at, to, 2)?;
    if p.to != to {
        return None;
    }
    if !contents::whole(s, p.from, p.to) {
        return None;
    }
    Some(p)
}

// With the updates, errors and long updates of element 72, if it is read.
fn open_result(s: &[u8], c: Cursor, p: Span) -> Option<Cursor>
    requires { (p.from ≤ p.to) × (p.to ≤ length s.now) }
    ensures { result ≡ opened_result s.now c p }
{
    if p.to == 0 {
        return Some(c);
    }
    let counted = contents::counted_in(s, p, 1)?;
    let long_updates = longs_at(s, counted.errors.to, p.to)?;
    Some(Cursor {
        updates: counted.values,
        update_errors: counted.errors,
        long_updates,
        ..c
    })
}

// A reply: its elements walked, then the contents of those that are read.
fn open_reply(s: &[u8]) -> Option<Cursor>
    requires { 1 ≤ length s.now }
    ensures { result ≡ opened_reply s.now }
{
    let k = contents::walk(s)?;
    let with_names = open_names(nothing_left(), k.names)?;
    let with_status = open_status(s, with_names, k.status)?;
    open_result(s, with_status, k.result)
}

// A notification: a length (2) behind its type, and contents.
fn open_notification(s: &[u8]) -> Option<Cursor>
    requires { 1 ≤ length s.now }
    ensures { result ≡ opened_notification s.now }
{
    let p = contents::sized_at(s, 1, s.len(), 2)?;
    open_status(s, nothing_left(), p)
}

// ---- the front of a span, or nothing where it is cut short

// A name.
fn name_in(s: &[u8], p: Span) -> Option<usize>
    requires { p.from < p.to }
    ensures { result ≡ name_in s.now p }
{
    let from = p.from;
    if s.len() < p.to {
        return None;
    }
    if p.to - from < wire::NAME_LENGTH {
        return None;
    }
    Some(octets::get16(s, from))
}

// A name, and where its value stands, with a length of w octets before it.
fn held_in(s: &[u8], p: Span, w: usize) -> Option<(usize, Span)>
    requires { (p.from < p.to) × (1 ≤ w) × (w ≤ 2) }
    ensures { result ≡ held_in w s.now p }
{
    let name = name_in(s, p)?;
    let value = contents::sized_at(s, p.from + wire::NAME_LENGTH, p.to, w)?;
    Some((name, value))
}

// A name, and the cause behind it, as the message has it.
fn failed_in(s: &[u8], p: Span) -> Option<(usize, u8)>
    requires { p.from < p.to }
    ensures { result ≡ failed_in s.now p }
{
    let name = name_in(s, p)?;
    let from = p.from;
    if p.to - from < wire::ERROR_LENGTH {
        return None;
    }
    Some((name, s[from + wire::NAME_LENGTH]))
}

// A cause as it reads in an update error, and in a read error. An octet and no enum: the definitions of a record and of its line
// have the octet, and an enum would be made here to be unmade where the line is written.
fn update_cause(cause: u8) -> u8
    ensures { result ≡ update_cause cause }
{
    match cause {
        wire::CAUSE_NOT_SUPPORTED | wire::CAUSE_INVALID_VALUE => cause,
        _ => wire::CAUSE_PROTOCOL_ERROR,
    }
}

fn read_cause(cause: u8) -> u8
    ensures { result ≡ read_cause cause }
{
    if cause == wire::CAUSE_UNAVAILABLE {
        return cause;
    }
    update_cause(cause)
}

// ---- records, handed out

// What a message hands out at a cursor: a record of the first kind of which octets are left.
pub fn next(s: &[u8], c: Cursor) -> Handed
    ensures { result ≡ handed_at s.now c }
{
    let mut left = c;
    if c.names.from < c.names.to {
        let name = name_in(s, c.names).ok_or(Refusal::CutShort)?;
        left.names.from += wire::NAME_LENGTH;
        return Ok(Some((Record::Name(name), left)));
    }
    if c.values.from < c.values.to {
        let (name, value) = held_in(s, c.values, 2).ok_or(Refusal::CutShort)?;
        left.values.from = value.to;
        return Ok(Some((Record::Value { name, value }, left)));
    }
    if c.read_errors.from < c.read_errors.to {
        let (name, told) = failed_in(s, c.read_errors).ok_or(Refusal::CutShort)?;
        left.read_errors.from += wire::ERROR_LENGTH;
        let cause = read_cause(told);
        return Ok(Some((Record::ReadError { name, cause }, left)));
    }
    if c.updates.from < c.updates.to {
        let (name, value) = held_in(s, c.updates, 1).ok_or(Refusal::CutShort)?;
        left.updates.from = value.to;
        return Ok(Some((Record::Update { name, value }, left)));
    }
    if c.update_errors.from < c.update_errors.to {
        let (name, told) = failed_in(s, c.update_errors).ok_or(Refusal::CutShort)?;
        left.update_errors.from += wire::ERROR_LENGTH;
        let cause = update_cause(told);
        return Ok(Some((Record::UpdateError { name, cause }, left)));
    }
    if c.long_updates.from < c.long_updates.to {
        let (name, value) = held_in(s, c.long_updates, 2).ok_or(Refusal::CutShort)?;
        left.long_updates.from = value.to;
        return Ok(Some((Record::LongUpdate { name, value }, left)));
    }
    Ok(None)
}

// What a message hands out first, once all of it has been walked: a refused one hands out nothing.
pub fn first(s: &[u8]) -> Handed
    ensures { result ≡ handed_first s.now }
{
    if s.is_empty() {
        return Err(Refusal::MessageEmpty);
    }
    if wire::REPLY_MOST < s.len() {
        return Err(Refusal::MessageTooLong);
    }
    let opened = match s[0] {
        wire::TYPE_COMPLETE => open_reply(s),
        wire::TYPE_NOTIFY => open_notification(s),
        _ => return Err(Refusal::TypeUnknown),
    };
    next(s, opened.ok_or(Refusal::CutShort)?)
}
