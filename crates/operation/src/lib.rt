// The operations of a command, handed out from its list of octets by a reader (RULES 10.10), and whether a list is whole.
// What is handed out is what `meaning` finds at the place.
#![tactic(auto)]

ghost use Rattle.std.specs.Prelude.{◌+◌, ◌≤◌, ◌<◌, ◌≡◌, length};
ghost use Rattle.meaning.specs.Octets.{octet};
ghost use Rattle.meaning.specs.Operation.{bad};
ghost use Rattle.meaning.specs.Profile.{has_code};
ghost use Rattle.operation.specs.Handing.{name_of, from_of, size_of, NoValue, found_at, handed_at, operation_in, place_behind, wholeness};

// A name and a value, which lies in the list: where it starts, and its length.
#[derive(Clone, Copy)]
pub struct NamedValue {
    pub name: usize,
    pub from: usize,
    pub size: usize,
}

// An operation.
#[derive(Clone, Copy)]
pub enum Op {
    Capabilities,
    Read(usize),
    Set(NamedValue),
    Subscribe(usize),
    Unsubscribe(usize),
    SelectiveRead(NamedValue),
    SelectiveSubscribe(NamedValue),
    SelectiveUnsubscribe(NamedValue),
    DeleteEntry(NamedValue),
}

impl Op {
    // The name of an operation; 0 where it has none.
    #[tactic(auto, unfolding(crate::specs::Handing::name_of))]
    pub fn name(self) -> usize
        ensures { result ≡ name_of self }
    {
        match self {
            Op::Capabilities => 0,
            Op::Read(name) | Op::Subscribe(name) | Op::Unsubscribe(name) => name,
            Op::Set(v)
            | Op::SelectiveRead(v)
            | Op::SelectiveSubscribe(v)
            | Op::SelectiveUnsubscribe(v)
            | Op::DeleteEntry(v) => v.name,
        }
    }

    // Where the value of a set starts; 0 for any other operation.
    #[tactic(auto, unfolding(crate::specs::Handing::from_of))]
    pub fn start(self) -> usize
        ensures { result ≡ from_of self }
    {
        match self {
            Op::Set(v) => v.from,
            _ => 0,
        }
    }

    // The length of the value of a set; 0 for any other operation.
    #[tactic(auto, unfolding(crate::specs::Handing::size_of))]
    pub fn size(self) -> usize
        ensures { result ≡ size_of self }
    {
        match self {
            Op::Set(v) => v.size,
            _ => 0,
        }
    }
}

// What stands in a list where an operation is malformed or cut short: its position in the message.
#[derive(Clone, Copy)]
pub struct Malformed {
    pub position: usize,
}

// An operation of a list, and the place behind it.
#[derive(Clone, Copy)]
pub struct NextOperation {
    pub op: Op,
    pub behind: usize,
}

// The refusal at a place where an operation is malformed or cut short. The list is there for the proof alone: the
// position of a place within it fits a number.
fn malformed_at(list: &[u8], at: usize) -> Result<Option<NextOperation>, Malformed>
    requires { at < length list.now }
    ensures { result ≡ found_at (length list.now) at bad }
{
    Err(Malformed {
        position: wire::COMMAND_HEAD + at,
    })
}

// Whether a profile has a code: Release 16 has none above that of unsubscribe (RULES 24.5).
fn has_code(profile: u8, code: u8) -> bool
    ensures { result ≡ has_code profile code }
{
    (profile != wire::RELEASE_16) | (code <= wire::CODE_UNSUBSCRIBE)
}

// The operation at a place whose code, if it is one at all, has a value: a set, or one of the four that are laid out as a set.
// The code is asked last: octets that are too few are malformed in any case. Here alone the profile decides, since every profile
// has the codes behind which no value stands.
fn valued_at(list: &[u8], at: usize, profile: u8) -> Result<Option<NextOperation>, Malformed>
    requires { (at + 3 ≤ length list.now) × (NoValue (octet list.now at) → ⊥) }
    ensures { result ≡ handed_at profile list.now at }
{
    let left = list.len() - at;
    if left < 5 {
        return malformed_at(list, at);
    }
    let size = octets::get16(list, at + 3);
    if left < 5 + size {
        return malformed_at(list, at);
    }
    let code = list[at];
    if !has_code(profile, code) {
        return malformed_at(list, at);
    }
    let name = octets::get16(list, at + 1);
    let from = at + 5;
    let value = NamedValue { name, from, size };
    let op = match code {
        wire::CODE_SET => Op::Set(value),
        wire::CODE_SELECTIVE_READ => Op::SelectiveRead(value),
        wire::CODE_SELECTIVE_SUBSCRIBE => Op::SelectiveSubscribe(value),
        wire::CODE_SELECTIVE_UNSUBSCRIBE => Op::SelectiveUnsubscribe(value),
        wire::CODE_DELETE_ENTRY => Op::DeleteEntry(value),
        _ => return malformed_at(list, at),
    };
    Ok(Some(NextOperation {
        op,
        behind: from + size,
    }))
}

// The operation at a place of a list; none for every place past its last octet. It is part of each loop that reads a list: as a
// function of its own it takes most of the time of a command of reads (DECISIONS 211).
#[inline(always)]
pub fn operation_at(list: &[u8], at: usize, profile: u8) -> Result<Option<NextOperation>, Malformed>
    ensures { result ≡ handed_at profile list.now at }
{
    if list.len() <= at {
        return Ok(None);
    }
    let left = list.len() - at;
    let code = list[at];
    if code == wire::CODE_CAPABILITIES {
        let op = Op::Capabilities;
        return Ok(Some(NextOperation { op, behind: at + 1 }));
    }
    if left < 3 {
        return malformed_at(list, at);
    }
    let name = octets::get16(list, at + 1);
    let op = match code {
        wire::CODE_READ => Op::Read(name),
        wire::CODE_SUBSCRIBE => Op::Subscribe(name),
        wire::CODE_UNSUBSCRIBE => Op::Unsubscribe(name),
        _ => return valued_at(list, at, profile),
    };
    Ok(Some(NextOperation { op, behind: at + 3 }))
}

// A reader: the list that is read, and the place at which it goes on.
#[derive(Clone, Copy)]
pub struct Reader<'a> {
    pub list: &'a [u8],
    pub at: usize,
}

impl<'a> Reader<'a> {
    // A reader at the start of a list.
    pub fn new(list: &'a [u8]) -> Reader<'a>
        ensures { (result.list ≡ list.entry) × (result.at ≡ 0) }
    {
        Reader { list, at: 0 }
    }

    // The operation at the reader's place, which moves behind it; none at the end of the list.
    #[inline(always)]
    #[tactic(auto, unfolding(crate::specs::Handing::operation_in, crate::specs::Handing::place_behind))]
    pub fn next_operation(&mut self, profile: u8) -> Result<Option<Op>, Malformed>
        ensures handed { result ≡ operation_in (handed_at profile self.old.list.now self.old.at) }
        ensures list { self.new.list ≡ self.old.list }
        ensures place { self.new.at ≡ place_behind self.old.at (handed_at profile self.old.list.now self.old.at) }
    {
        let Some(next) = operation_at(self.list, self.at, profile)? else {
            return Ok(None);
        };
        self.at = next.behind;
        Ok(Some(next.op))
    }
}

// Whether each octet of a list belongs to a whole operation; else the position in the message of the first one that is
// malformed or cut short.
pub fn whole(list: &[u8], profile: u8) -> Result<(), Malformed>
    ensures { result ≡ wholeness profile list.now }
{
    let mut reader = Reader::new(list);
    while reader.next_operation(profile)?.is_some() {}
    Ok(())
}
