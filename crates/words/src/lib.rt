// What a captured message prints (RULES 21): words of parameters and causes, a line for each record. Each function
// says by a definition what it prints on a page.
#![tactic(auto)]

ghost use Rattle.std.specs.Prelude.{◌+◌, ◌≤◌, ◌≡◌, length};
ghost use Rattle.page.specs.Printing.{HasRoom, Prints};
ghost use Rattle.meaning.specs.Capture.{a_name};
ghost use Rattle.words.specs.Words.{word_at, word, cause_word};
ghost use Rattle.words.specs.Lines.{started, record_line, valued_word, valued, failing_word, failing, fixed_line};

use page::Page;

// The word of a name. Each arm copies a constant: a function that returned the word as a slice, for one copy of any length, took
// an eighth more of the time of `desk`.
pub fn write_word(page: &mut Page<'_>, name: usize)
    requires { HasRoom page.old 29 }
    ensures { Prints page.old (word name) page.new }
{
    let k = table::place_of(name);
    match k {
        0 => page.print(b"txPropagationDelay"),
        1 => page.print(b"GateEnabled"),
        2 => page.print(b"AdminBaseTime"),
        3 => page.print(b"AdminControlListLength"),
        4 => page.print(b"AdminControlList"),
        5 => page.print(b"AdminCycleTime"),
        6 => page.print(b"TickGranularity"),
        7 => page.print(b"SupportedListMax"),
        8 => page.print(b"lldpV2PortConfigAdminStatusV2"),
        9 => page.print(b"lldpV2LocChassisIdSubtype"),
        10 => page.print(b"lldpV2LocChassisId"),
        11 => page.print(b"lldpV2LocPortIdSubtype"),
        12 => page.print(b"lldpV2LocPortId"),
        13 => page.print(b"lldpV2RemChassisIdSubtype"),
        14 => page.print(b"lldpV2RemChassisId"),
        15 => page.print(b"lldpV2RemPortIdSubtype"),
        16 => page.print(b"lldpV2RemPortId"),
        17 => page.print(b"lldpTTL"),
        18 => page.print(b"commit"),
        _ => page.print(b"unknown"),
    }
}

// The word of a cause.
pub fn write_cause(page: &mut Page<'_>, cause: u8)
    requires { HasRoom page.old 14 }
    ensures { Prints page.old (cause_word cause) page.new }
{
    match cause {
        wire::CAUSE_NOT_SUPPORTED => page.print(b"not-supported"),
        wire::CAUSE_INVALID_VALUE => page.print(b"invalid-value"),
        wire::CAUSE_UNAVAILABLE => page.print(b"unavailable"),
        _ => page.print(b"protocol-error"),
    }
}

// ---- lines of records

// The kinds of a record with a value.
#[derive(Clone, Copy, PartialEq, Eq)]
pub enum Valued {
    Value,
    Update,
    LongUpdate,
}

impl Valued {
    fn word(self) -> &'static [u8]
        ensures { result.now ≡ valued_word self }
    {
        match self {
            Valued::Value => b"  value ",
            Valued::Update => b"  update ",
            Valued::LongUpdate => b"  long-update ",
        }
    }
}

// The kinds of a record with a cause.
#[derive(Clone, Copy, PartialEq, Eq)]
pub enum Failing {
    ReadError,
    UpdateError,
}

impl Failing {
    fn word(self) -> &'static [u8]
        ensures { result.now ≡ failing_word self }
    {
        match self {
            Failing::ReadError => b"  read-error ",
            Failing::UpdateError => b"  update-error ",
        }
    }
}

// How a record's line starts: its kind with the blanks around it, the name in four digits, the name's word.
fn write_start(page: &mut Page<'_>, kind: &[u8], name: usize)
    requires { HasRoom page.old (length kind.now + 34) }
    ensures { Prints page.old (started kind.now name) page.new }
{
    let spelt = [(name / 256 % 256) as u8, (name % 256) as u8];
    page.print(kind);
    text::write_hex(page, &spelt);
    page.push(b' ');
    write_word(page, name);
}

// A name that is listed.
pub fn write_name(page: &mut Page<'_>, name: usize)
    requires { HasRoom page.old 42 }
    ensures { Prints page.old (record_line (a_name name)) page.new }
{
    write_start(page, b"  name ", name);
    page.push(b'\n');
}

// A name and a value.
pub fn write_held(page: &mut Page<'_>, kind: Valued, name: usize, value: &[u8])
    requires { HasRoom page.old (length (valued_word kind) + (length value.now + length value.now + 37)) }
    ensures { Prints page.old (record_line (valued kind (record { name = name; value = value.now }))) page.new }
{
    write_start(page, kind.word(), name);
    page.push(b' ');
    text::write_octets(page, value);
}

// A name and a cause.
pub fn write_failed(page: &mut Page<'_>, kind: Failing, name: usize, cause: u8)
    requires { HasRoom page.old (length (failing_word kind) + 53) }
    ensures { Prints page.old (record_line (failing kind (record { name = name; cause = cause }))) page.new }
{
    write_start(page, kind.word(), name);
    page.push(b' ');
    text::write_hex(page, &[cause]);
    page.push(b' ');
    write_cause(page, cause);
    page.push(b'\n');
}

// ---- other lines

// A line of which every octet is known: what stands ahead of a reply's records, and of a notification's; and what is said of a
// line that stands for no message.
#[derive(Clone, Copy, PartialEq, Eq)]
pub enum Fixed {
    Complete,
    Notify,
    NotAMessage,
}

pub fn write_fixed(page: &mut Page<'_>, which: Fixed)
    requires { HasRoom page.old (length (fixed_line which)) }
    ensures { Prints page.old (fixed_line which) page.new }
{
    match which {
        Fixed::Complete => page.print(b"complete\n"),
        Fixed::Notify => page.print(b"notify\n"),
        Fixed::NotAMessage => page.print(b"not a message\n"),
    }
}
