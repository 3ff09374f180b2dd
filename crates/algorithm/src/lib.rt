// The vocabulary of the engine: roles, three counters that cannot stand for one another, why something is refused, and the reply to an action.
#![tactic(auto)]

ghost use Rattle.std.specs.Prelude.{◌≡◌};
ghost use Rattle.words.specs.Words.{value_of};
ghost use Rattle.algorithm.specs.Run.{told, answer_of, reply_bytes};

// The two roles. A role is a number, since a slice and an image may have any in its place until they are judged.
pub const SECONDARY: u32 = 0;

pub const PRIMARY: u32 = 1;

// A term: of a server, of a configuration, of an entry, of a mark.
#[derive(Clone, Copy, PartialEq, Eq, PartialOrd, Ord)]
pub struct Term(pub u32);

// A version of a configuration.
#[derive(Clone, Copy, PartialEq, Eq, PartialOrd, Ord)]
pub struct Version(pub u32);

// A position in a log, from 1; a log's length is its last one.
#[derive(Clone, Copy, PartialEq, Eq, PartialOrd, Ord)]
pub struct Position(pub u8);

// The largest term and the largest version.
pub const CEILING: u32 = 1_000_000_000;

// How many positions a log, and the marks, have room for.
pub const POSITIONS: u8 = 64;

// The most servers that a table has.
pub const SERVERS: u8 = 16;

// The rules by their numbers: 0 is rule 1, and this is rule 2, the last.
pub const RULE_2: u32 = 1;

// Why something is refused. Some refusals show who stands in the way: a server, or a majority of the old set and one of the new without a
// common server. Each has its number (`number`), and a change of sets that may not be has one number, with a pair and without.
#[derive(Clone, Copy, PartialEq, Eq)]
pub enum Refused {
    // The table, and an action's bytes.
    Broken,
    Unknown,
    Stray,
    NoServer,
    NoSet,
    // Who acts, and by which set.
    Role,
    NoMajority,
    // Voters.
    LargerTerm(u8),
    NewerConfig(u8),
    LogAhead(u8),
    // A term or a version that cannot grow.
    Ceiling,
    // A new set, and who has the old configuration.
    WithoutLeader,
    MayNotFollow,
    Apart(u16, u16),
    BelowFloor,
    FewHaveConfig,
    FewHaveTerm,
    FewHaveMarked,
    // What is sent or spread.
    NotNewer,
    NotLarger,
    // Logs.
    Full,
    NothingToFetch,
    NothingToRollBack,
    // A commit.
    LacksEntry,
    Opposed(u8),
    MarkedOtherwise,
    // An image, and the number of servers of a fresh table.
    Short,
    NotOpened,
    Servers,
    NotLaidOut,
    Unsound,
    NoRoom,
}

impl Refused {
    pub fn number(self) -> u8
        ensures { result ≡ (told self).number }
    {
        match self {
            Refused::Broken => 1,
            Refused::Unknown => 2,
            Refused::Stray => 3,
            Refused::NoServer => 4,
            Refused::NoSet => 5,
            Refused::Role => 6,
            Refused::NoMajority => 7,
            Refused::LargerTerm(_) => 8,
            Refused::NewerConfig(_) => 9,
            Refused::LogAhead(_) => 10,
            Refused::Ceiling => 11,
            Refused::WithoutLeader => 12,
            Refused::MayNotFollow => 13,
            Refused::Apart(_, _) => 13,
            Refused::BelowFloor => 25,
            Refused::FewHaveConfig => 14,
            Refused::FewHaveTerm => 15,
            Refused::FewHaveMarked => 16,
            Refused::NotNewer => 17,
            Refused::NotLarger => 18,
            Refused::Full => 19,
            Refused::NothingToFetch => 20,
            Refused::NothingToRollBack => 21,
            Refused::LacksEntry => 22,
            Refused::Opposed(_) => 23,
            Refused::MarkedOtherwise => 24,
            Refused::Short => 30,
            Refused::NotOpened => 31,
            Refused::Servers => 32,
            Refused::NotLaidOut => 33,
            Refused::Unsound => 34,
            Refused::NoRoom => 35,
        }
    }

    // The number and what is shown, as a reply has them in its eight bytes: by their places, since the bytes in a row would name the zeros between.
    fn eight_bytes(self) -> u64
        ensures { result ≡ value_of (reply_bytes (told self)) }
    {
        let number = self.number() as u64;
        match self {
            Refused::LargerTerm(s)
            | Refused::NewerConfig(s)
            | Refused::LogAhead(s)
            | Refused::Opposed(s) => number + 256 * (s as u64),
            Refused::Apart(old, new) => {
                number + 4294967296 * (old as u64 + 65536 * (new as u64))
            }
            _ => number,
        }
    }
}

// The reply to an action: taken, with the number of entries that a stretch copied, 0 for any other kind; or refused.
pub type Reply = Result<u8, Refused>;

// The reply's number: 0 for taken, or the refusal's.
pub fn number(r: Reply) -> u8
    ensures { result ≡ (answer_of r).number }
{
    match r {
        Ok(_) => 0,
        Err(refused) => refused.number(),
    }
}

// The reply's eight bytes as one number, the low byte first.
pub fn eight_bytes(r: Reply) -> u64
    ensures { result ≡ value_of (reply_bytes (answer_of r)) }
{
    match r {
        Ok(copied) => 65536 * (copied as u64),
        Err(refused) => refused.eight_bytes(),
    }
}
