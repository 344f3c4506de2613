// What is right, and what follows from it. No function stands here: every contract of the other crates cites `specs/`.
#![tactic(auto)]

// The largest length. It is odd, so only a remove can run out of lengths.
pub const M: u64 = 4294967295;

// The most bytes of input that a report is made of.
pub const INPUT_MAX: usize = 32768;

// The room that every report of so many bytes fits: 22 for each, and 256 for what stands at its end.
pub const ROOM_BY_BYTE: usize = 22;

pub const ROOM_BESIDES: usize = 256;

// The same for the largest input: 721,152 bytes.
pub const REPORT_MAX: usize = ROOM_BY_BYTE * INPUT_MAX + ROOM_BESIDES;

// The words of the largest table: 2,048 entries.
pub const TABLE_WORDS: usize = 4096;

// The most entries of a group, and the words that they take.
pub const GROUP_ENTRIES: usize = 64;

pub const GROUP_WORDS: usize = 2 * GROUP_ENTRIES;

// The room that every group of so many words fits: seven bytes for each, and two more. A length takes five bytes at most and a gap nine, but for one gap of ten,
// since the ids rise; and the count takes one.
pub const GROUP_BY_WORD: usize = 7;

pub const GROUP_BESIDES: usize = 2;

// How many entries a ledger has: one for each ordered pair of 16 sites.
pub const ENTRIES: usize = 256;

// The number of no link: past the last entry nothing is read or set.
pub const NO_LINK: usize = ENTRIES;

// Why a call is refused. C is given the number, and 0 where nothing is refused.
#[derive(Clone, Copy)]
pub enum Refusal {
    BadSizes = 1,
    Unsound = 2,
    NoSite = 3,
    SameSite = 4,
    NoParcel = 5,
    NothingToSend = 6,
    LengthsOut = 7,
    NoRoom = 8,
    NoSlot = 9,
    CountFull = 10,
    NoStep = 11,
    InputLong = 12,
    ShortBuffer = 13,
    ManyIds = 14,
    NoOrder = 15,
    NothingHeard = 16,
    NoGroup = 17,
}

// The sizes of a run, named at each call: the number of sites, and how many entries a table has room for.
#[derive(Clone, Copy)]
pub struct Run {
    pub sites: u64,
    pub capacity: u64,
}

// One slot of the parcel list: an update under way to a site, with the site that sent it and its serial; or all 0 where the slot is free.
#[repr(C)]
#[derive(Clone, Copy, Default)]
pub struct Parcel {
    pub site: u64,
    pub id: u64,
    pub length: u64,
    pub sender: u32,
    pub serial: u32,
}

// What is kept of the link from one site to another: the next serial to go out, the newest one heard, a mark for nothing sent and one for nothing
// heard. A mark stands where it is not 0.
#[repr(C)]
#[derive(Clone, Copy, Default)]
pub struct Pair {
    pub next: u32,
    pub heard: u32,
    pub unsent: u32,
    pub unheard: u32,
}

// The counts of updates: sent, copied, absorbed, lost. How many wait is not stored.
#[repr(C)]
#[derive(Clone, Copy, Default)]
pub struct Counts {
    pub sent: u64,
    pub copied: u64,
    pub absorbed: u64,
    pub lost: u64,
}

// The counts, and an entry for each ordered pair of sites: that of site a to site b is at 16 a + b, however many sites a run has.
#[repr(C)]
#[derive(Clone, Copy)]
pub struct Ledger {
    pub counts: Counts,
    pub pairs: [Pair; ENTRIES],
}

// What one pass over the slots tells: whether each is free or rightly occupied, how many are occupied, and the lowest free one, or the number
// of slots where none is free.
#[derive(Clone, Copy)]
pub struct Scan {
    pub sound: bool,
    pub waiting: u64,
    pub free: usize,
}

// What a step sees of the ledger: the counts, the link that it names with its entry, and whether the entries of the run's links are sound.
#[derive(Clone, Copy)]
pub struct Seen {
    pub counts: Counts,
    pub link: usize,
    pub pair: Pair,
    pub sound: bool,
}

// What a step sees besides the words: what one pass over the slots told, the parcel in the slot that the step names, how many slots there are,
// and what it sees of the ledger.
#[derive(Clone, Copy)]
pub struct Sight {
    pub scan: Scan,
    pub named: Parcel,
    pub count: usize,
    pub books: Seen,
}

// The eight steps of a run.
#[derive(Clone, Copy)]
pub enum Step {
    Add { site: u64, id: u64 },
    Remove { site: u64, id: u64 },
    Query { site: u64, id: u64 },
    Send { from: u64, to: u64, id: u64 },
    Merge { from: u64, to: u64 },
    Deliver { slot: u64 },
    Again { slot: u64 },
    Lose { slot: u64 },
}

// The four numbers of a step, as its line has them: its kind, its first site or slot, its second site and its id; unused ones 0.
#[derive(Clone, Copy)]
pub struct Numbers {
    pub kind: u64,
    pub first: u64,
    pub second: u64,
    pub id: u64,
}
