// What a line of input stands for (RULES 21), found octet by octet, so that a line of any length is taken with a room of 4,097
// octets. Each function says by a definition of `Forms` what it makes of a line.
#![tactic(auto)]

ghost use Rattle.std.specs.Prelude.{◌≤◌, ◌<◌, ◌≡◌, true, ◌∷◌, [], length};
ghost use Rattle.typed.specs.Signs.{sign_of, decodes};
ghost use Rattle.typed.specs.Forms.{paired, form_after, completed_by, Starts, Small, Keeps, Stores, Takes};
ghost use Rattle.typed.specs.Scanning.{whole_octets, Goes, Scans};

// Octets that are kept of a line: one more than a message may have.
pub const KEPT_MOST: usize = 4097;

// What an octet is: a hexadecimal digit, a blank, `-`, or anything else.
#[derive(Clone, Copy)]
pub enum Sign {
    Hex(u8),
    Space,
    Dash,
    Stray,
}

// What a line stands for so far.
#[derive(Clone, Copy)]
pub enum Form {
    // Nothing but blanks.
    Blank,
    // A hexadecimal digit, the line's first.
    Digit(u8),
    // A decimal digit and blanks.
    Lead(u8),
    // Two decimal digits: a number, and an octet that is kept.
    Number(usize),
    // The same, and blanks.
    Numbered(usize),
    // Whole octets, and blanks.
    Octets,
    // Octets and the first digit of another.
    Half(u8),
    // A number, blanks and `-`.
    Refused(usize),
    // Anything else.
    Other,
}

// A line so far. Its first `count` octets are at the front of a room that is lent beside it: the room outlives the line.
#[derive(Clone, Copy)]
pub struct Line {
    pub form: Form,
    pub comment: bool,
    pub count: usize,
}

// A line that goes on at a place in what is held.
#[derive(Clone, Copy)]
struct Run {
    line: Line,
    at: usize,
}

// A line to a place in what is held; whether it has ended there. Line and place are told either way, so this is no
// `Option`.
#[derive(Clone, Copy)]
pub struct Scanned {
    pub line: Line,
    pub at: usize,
    pub ended: bool,
}

// A line of which nothing is taken yet.
pub fn start() -> Line
    ensures { Starts result }
{
    Line {
        form: Form::Blank,
        comment: false,
        count: 0,
    }
}

// ---- an octet

// The value of a hexadecimal digit; 16 or more of another octet. The lesser of two numbers, each 16 or more where it does not
// count: how far an octet lies behind `0`, 9 at most, and behind `a`, 5 at most, with a letter made small; 208 and 159 take `0`
// and `a` off in 256. Tests would be branches, and which digit comes cannot be foretold.
fn digit(c: u8) -> usize
    ensures { decodes (sign_of c) result ≡ true }
{
    let x = usize::from(c);
    let behind = (x + 208) % 256;
    let decimal = behind + (behind + 6) / 16 * 6;
    let letter = ((x | 32) + 159) % 256 + 10;
    if decimal < letter {
        return decimal;
    }
    letter
}

fn sign_of(c: u8) -> Sign
    ensures { result ≡ sign_of c }
{
    let d = digit(c);
    if d < 16 {
        return Sign::Hex(d as u8);
    }
    match c {
        b' ' | b'\t' | b'\r' => Sign::Space,
        b'-' => Sign::Dash,
        _ => Sign::Stray,
    }
}

// Two digits at a line's start. Two tests one in the other: with both as one, lines of digits took a fifth longer.
fn paired(h: u8, d: u8) -> Form
    ensures { result ≡ paired h d }
{
    if h < 10 {
        if d < 10 {
            return Form::Number(10 * usize::from(h) + usize::from(d));
        }
    }
    Form::Octets
}

// A form after an octet, by what the octet is. The octet first: `sign_of` has told its kinds apart already, and a match of both at
// once would ask for the form ahead of it, with one jump more an octet.
#[tactic(auto, unfolding(crate::specs::Forms::form_after, crate::specs::Forms::by_sign))]
fn after(form: Form, sign: Sign) -> Form
    ensures { result ≡ form_after form sign }
{
    match sign {
        Sign::Hex(d) => match form {
            Form::Blank => Form::Digit(d),
            Form::Digit(h) => paired(h, d),
            Form::Lead(n) if n == 0 => Form::Half(d),
            Form::Number(_) | Form::Numbered(_) | Form::Octets => Form::Half(d),
            Form::Half(_) => Form::Octets,
            _ => Form::Other,
        },
        Sign::Space => match form {
            Form::Digit(h) if h < 10 => Form::Lead(h),
            Form::Number(n) => Form::Numbered(n),
            Form::Blank | Form::Lead(_) | Form::Numbered(_) | Form::Octets | Form::Refused(_) =>
                form,
            _ => Form::Other,
        },
        Sign::Dash => match form {
            Form::Lead(n) => Form::Refused(usize::from(n)),
            Form::Numbered(n) => Form::Refused(n),
            _ => Form::Other,
        },
        Sign::Stray => Form::Other,
    }
}

// ---- octets that are kept

// An octet kept, if there is room for it; how many are.
fn keep(room: &mut [u8], count: usize, x: u8) -> usize
    requires { (length room.old ≡ 4097) × (count ≤ 4097) }
    ensures { Stores room.old count (x ∷ []) result room.new }
{
    if count < KEPT_MOST {
        room[count] = x;
        return count + 1;
    }
    count
}

// The octet that a digit completes, if any, kept; how many are. An arm for a line's first octet and one for those behind it, so
// that a wrong program can turn one alone.
fn complete(room: &mut [u8], count: usize, form: Form, d: u8) -> usize
    requires { (length room.old ≡ 4097) × (count ≤ 4097) × Small form × (d < 16) }
    ensures { Stores room.old count (completed_by form d) result room.new }
{
    match form {
        Form::Digit(h) => keep(room, count, h * 16 + d),
        Form::Half(h) => keep(room, count, h * 16 + d),
        _ => count,
    }
}

// ---- a line

// One octet taken.
fn take(room: &mut [u8], line: Line, c: u8) -> Line
    requires { Keeps room.old line }
    ensures { Takes room.old line c result room.new }
{
    if line.comment {
        return line;
    }
    if c == b'#' {
        return Line {
            comment: true,
            ..line
        };
    }
    let sign = sign_of(c);
    let form = after(line.form, sign);
    let Sign::Hex(d) = sign else {
        return Line { form, ..line };
    };
    Line {
        form,
        comment: false,
        count: complete(room, line.count, line.form, d),
    }
}

// Pairs of digits taken behind whole octets: what most of a long line is. The two digits are tested at once. The
// place is counted by hand, since it is returned.
fn take_pairs(room: &mut [u8], count: usize, held: &[u8], from: usize) -> Run
    requires { Keeps room.old (whole_octets count) × (from ≤ length held.now) }
    ensures { Goes room.old (whole_octets count) held.now from room.new result.line result.at }
{
    let mut kept = count;
    let mut at = from;
    while 1 < held.len() - at {
        let h = digit(held[at]);
        let d = digit(held[at + 1]);
        if 15 < h | d {
            break;
        }
        kept = keep(room, kept, (h * 16 + d) as u8);
        at += 2;
    }
    let line = Line {
        form: Form::Octets,
        comment: false,
        count: kept,
    };
    Run { line, at }
}

// A line of whole octets goes on by pairs; any other stays where it is.
fn take_run(room: &mut [u8], line: Line, held: &[u8], from: usize) -> Run
    requires { Keeps room.old line × (from ≤ length held.now) }
    ensures { Goes room.old line held.now from room.new result.line result.at }
{
    if line.comment {
        return Run { line, at: from };
    }
    let Form::Octets = line.form else {
        return Run { line, at: from };
    };
    take_pairs(room, line.count, held, from)
}

// Octets taken from a place on, up to the first line feed, which is passed, or to the end. A turn goes on by as many
// octets as it took, so this is no `for`.
pub fn scan(room: &mut [u8], line: Line, held: &[u8], from: usize) -> Scanned
    requires { Keeps room.old line × (from ≤ length held.now) }
    ensures { Scans room.old line held.now from result room.new }
{
    let mut read = line;
    let mut at = from;
    while at < held.len() {
        let c = held[at];
        at += 1;
        if c == b'\n' {
            return Scanned {
                line: read,
                at,
                ended: true,
            };
        }
        let taken = take(room, read, c);
        let run = take_run(room, taken, held, at);
        read = run.line;
        at = run.at;
    }
    Scanned {
        line: read,
        at,
        ended: false,
    }
}
