// What stands where in a captured message: the elements of a reply that are read, and the records in contents, each by its place.
// Nothing is kept of the octets but places; the definitions of `Spans` tell them by what `Capture` of `meaning` finds.
#![tactic(auto)]

ghost use Rattle.std.specs.Prelude.{◌+◌, ◌-◌, ◌≤◌, ◌<◌, ◌≡◌, length};
ghost use Rattle.meaning.specs.Octets.{part};
ghost use Rattle.meaning.specs.Block.{as_number};
ghost use Rattle.meaning.specs.Capture.{sized, front_held, several, length_octets};
ghost use Rattle.contents.specs.Spans.{spanned, kept, walked, place_after, is_whole, counted_in};

// The octets of a message from one place up to another. Nothing is asked of the two: `capture::next` takes every cursor, so
// whoever needs an order of them asks for it.
#[derive(Clone, Copy)]
pub struct Span {
    pub from: usize,
    pub to: usize,
}

// ---- octets behind a length

// The number that none, one or two octets at a place spell.
fn length_at(s: &[u8], at: usize, w: usize) -> usize
    requires { (at + w ≤ length s.now) × (w ≤ 2) }
    ensures { (result ≡ as_number (part s.now at w)) × (result < 65536) }
{
    if w == 2 {
        return octets::get16(s, at);
    }
    if w == 1 {
        return usize::from(s[at]);
    }
    0
}

// A length of w octets at a place, and as many octets behind it as it says, up to another place.
pub fn sized_at(s: &[u8], at: usize, to: usize, w: usize) -> Option<Span>
    requires { (at ≤ to) × (to ≤ length s.now) × (w ≤ 2) }
    ensures { result ≡ spanned to (sized w (part s.now at (to - at))) }
{
    if to - at < w {
        return None;
    }
    let from = at + w;
    let n = length_at(s, at, w);
    if to - from < n {
        return None;
    }
    Some(Span { from, to: from + n })
}

// ---- elements

// Octets of the length behind an identifier.
fn length_octets(id: u8) -> usize
    ensures { (result ≡ length_octets id) × (result ≤ 2) }
{
    if 0x80 <= id {
        return 0;
    }
    if 0x70 <= id {
        return 2;
    }
    1
}

// Where the contents stand of the elements that are read, from 0 to 0 of one that is not; the highest of their identifiers.
#[derive(Clone, Copy)]
pub struct Contents {
    pub highest: u8,
    pub names: Span,
    pub status: Span,
    pub result: Span,
}

// What is kept after a further element: itself, if it is known and above all before it.
fn keep(k: Contents, id: u8, p: Span) -> Contents
    ensures { result ≡ kept k id p }
{
    if id <= k.highest {
        return k;
    }
    let highest = id;
    match id {
        wire::ELEMENT_CAPABILITY => Contents {
            highest,
            names: p,
            ..k
        },
        wire::ELEMENT_STATUS => Contents {
            highest,
            status: p,
            ..k
        },
        wire::ELEMENT_UPDATE_RESULT => Contents {
            highest,
            result: p,
            ..k
        },
        _ => k,
    }
}

// All elements of a reply, which stand behind its type, walked by their sizes; nothing where one is cut short. Each takes another
// number of octets, so that no range gives the places.
pub fn walk(s: &[u8]) -> Option<Contents>
    requires { 1 ≤ length s.now }
    ensures { result ≡ walked s.now }
{
    let none = Span { from: 0, to: 0 };
    let mut k = Contents {
        highest: 0,
        names: none,
        status: none,
        result: none,
    };
    let mut at = 1;
    while at < s.len() {
        let id = s[at];
        let p = sized_at(s, at + 1, s.len(), length_octets(id))?;
        k = keep(k, id, p);
        at = p.to;
    }
    Some(k)
}

// ---- records, walked

// n values with lengths of w octets, from a place on.
fn pass(s: &[u8], at: usize, to: usize, w: usize, n: u8) -> Option<usize>
    requires { (at ≤ to) × (to ≤ length s.now) × (1 ≤ w) × (w ≤ 2) }
    ensures { result ≡ place_after to (several (front_held w) n (part s.now at (to - at))) }
{
    let mut next = at;
    for _ in 0..n {
        if to - next < wire::NAME_LENGTH {
            return None;
        }
        let p = sized_at(s, next + wire::NAME_LENGTH, to, w)?;
        next = p.to;
    }
    Some(next)
}

// Whether the octets from a place up to another are whole values with lengths of two octets.
// Each value takes another number of octets, so that no range gives the places.
pub fn whole(s: &[u8], at: usize, to: usize) -> bool
    requires { (at ≤ to) × (to ≤ length s.now) }
    ensures { result ≡ is_whole (part s.now at (to - at)) }
{
    let mut next = at;
    while next < to {
        let Some(end) = pass(s, next, to, 2, 1) else {
            return false;
        };
        next = end;
    }
    true
}

// Where values and errors stand, each behind their count.
#[derive(Clone, Copy)]
pub struct Counted {
    pub values: Span,
    pub errors: Span,
}

// A count, values with lengths of w octets, a count, errors: the octets p begin with these, or they are not all there.
pub fn counted_in(s: &[u8], p: Span, w: usize) -> Option<Counted>
    requires { (p.from ≤ p.to) × (p.to ≤ length s.now) × (1 ≤ w) × (w ≤ 2) }
    ensures { result ≡ counted_in w s.now p }
{
    let from = p.from;
    let to = p.to;
    if to <= from {
        return None;
    }
    let second = pass(s, from + 1, to, w, s[from])?;
    if to <= second {
        return None;
    }
    let n = wire::ERROR_LENGTH * usize::from(s[second]);
    let errors = second + 1;
    if to - errors < n {
        return None;
    }
    Some(Counted {
        values: Span {
            from: from + 1,
            to: second,
        },
        errors: Span {
            from: errors,
            to: errors + n,
        },
    })
}
