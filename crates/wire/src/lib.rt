// What stands on the wire as a number, by name, and how much of each thing there may be. The definitions' own names for them
// are in `Wire` of `meaning`; the contracts of the code that uses these hold the two together.
#![tactic(auto)]

ghost use Rattle.std.specs.Prelude.{◌≡◌};
ghost use Rattle.wire.specs.Causes.{octet_of};

// ---- profiles

// An octet, and no enum, in the functions that take one: they say what they do for every octet, and with an enum their callers would
// have to know that it is one of the two.
pub const RELEASE_18: u8 = 2;

pub const RELEASE_16: u8 = 3;

// ---- types of messages

// These are octets, as a message has them; so are the elements and codes below. Whoever reads one matches it at once; an enum would be
// made and taken apart in the same line.
pub const TYPE_COMMAND: u8 = 0x01;

pub const TYPE_COMPLETE: u8 = 0x02;

pub const TYPE_NOTIFY: u8 = 0x03;

pub const TYPE_NOTIFY_ACK: u8 = 0x04;

pub const TYPE_NOTIFY_COMPLETE: u8 = 0x05;

// ---- elements of a reply

pub const ELEMENT_CAPABILITY: u8 = 0x70;

pub const ELEMENT_STATUS: u8 = 0x71;

pub const ELEMENT_UPDATE_RESULT: u8 = 0x72;

// ---- codes of operations

pub const CODE_CAPABILITIES: u8 = 1;

pub const CODE_READ: u8 = 2;

pub const CODE_SET: u8 = 3;

pub const CODE_SUBSCRIBE: u8 = 4;

pub const CODE_UNSUBSCRIBE: u8 = 5;

pub const CODE_SELECTIVE_READ: u8 = 6;

pub const CODE_SELECTIVE_SUBSCRIBE: u8 = 7;

pub const CODE_SELECTIVE_UNSUBSCRIBE: u8 = 8;

pub const CODE_DELETE_ENTRY: u8 = 9;

// ---- causes

// Why a read or a set is refused. Each is one octet of a record.
#[derive(Clone, Copy, PartialEq, Eq)]
pub enum Cause {
    NotSupported = 0x01,
    InvalidValue = 0x02,
    Unavailable = 0x03,
    ProtocolError = 0x6F,
}

#[tactic(auto, unfolding(crate::specs::Causes::octet_of))]
impl From<Cause> for u8 {
    ghost from_gives = { λ c x. x ≡ octet_of c };

    fn from(cause: Cause) -> u8 {
        cause as u8
    }
}

// Causes as a captured record has them, where they may be any octet.
pub const CAUSE_NOT_SUPPORTED: u8 = 0x01;

pub const CAUSE_INVALID_VALUE: u8 = 0x02;

pub const CAUSE_UNAVAILABLE: u8 = 0x03;

pub const CAUSE_PROTOCOL_ERROR: u8 = 0x6F;

// ---- lengths

// Octets before a value in its record: name (2) and length, of two octets or of one.
pub const VALUE_HEAD: usize = 4;

pub const SHORT_HEAD: usize = 3;

// Octets of an error's record: name (2), cause.
pub const ERROR_LENGTH: usize = 3;

// Octets before an element's contents: identifier, length (2).
pub const ELEMENT_HEAD: usize = 3;

// Octets of the type and the length (2) before a command's operations.
pub const COMMAND_HEAD: usize = 3;

// Octets of a name, of the 19 that Release 18 lists, and of the 18 that Release 16 does.
pub const NAME_LENGTH: usize = 2;

pub const NAMES_LENGTH: usize = 38;

pub const NAMES_LENGTH_16: usize = 36;

// ---- limits

// Octets of a message, and of a reply.
pub const MESSAGE_MOST: usize = 2048;

pub const REPLY_MOST: usize = 4096;

// Records that a count can tell, and octets of a value whose length has one octet.
pub const COUNT_MOST: u32 = 255;

pub const SHORT_MOST: usize = 255;

// Octets that a notification's room has at least, and octets of the longest notification.
pub const NOTIFICATION_ROOM: usize = 1600;

pub const NOTIFICATION_MOST: usize = 559;

// Expiries after which a notification is sent again; the next gives it up.
pub const EXPIRIES_MOST: u8 = 4;
