// Why a call is refused. Each reason has its number of document 01 or 02 here, and besides only where a test says what it expects.
ghost use Rattle.std.specs.Prelude.{◌≡◌};

// The reply numbers, in their order; 0 is no refusal, and 7 is none's.
#[derive(Clone, Copy, PartialEq, Eq)]
pub enum Reason {
    Cut = 1, // the book stops before a kind byte or inside a body
    UnknownKind = 2, // unknown kind
    TooMany = 3, // 17th rule, 65th state or 513th arc
    NoRule = 4, // state, arc or end before any rule
    BadField = 5, // a field is outside its range, a symbol above 31, or lowest above highest
    BadArc = 6, // an arc names a state not yet given in the latest rule, or two parts
    AfterEnd = 8, // a byte follows the end record
    LongTape = 9, // tape longer than 4,096
    BadSymbol = 10, // a tape symbol above 31
    ShortWorkspace = 11, // workspace too short, either piece
    ShortScratch = 12, // scratch shorter than n + 1
    ManyLeftSets = 13, // more than 256 left sets
    ManyRightSets = 14, // more than 256 right sets
    NoRoom = 15, // no room for the output, the account or the records
    ManyLanes = 16, // more than ten lanes
    Outside = 17, // a lane's stretch leaves the common buffer
    BadLine = 18, // a line that is no arc and no final state, a state above 65,535
    BadLabel = 19, // a label 0 or above 32
    NoAcceptor = 20, // a line of two or four fields
    LargePart = 21, // more than 512 arcs, or a state number above 63
}

impl Reason {
    ghost use Rattle.book.specs.Refusals.{number};

    // By name, and no `From`, which would be no plainer: the contracts speak of `number`.
    pub fn number(self) -> u8
        ensures { result ≡ number self }
    {
        self as u8
    }

    // The refusal for this reason at a place.
    pub fn at(self, place: usize) -> Refusal
        ensures { result ≡ record { reason = self; place = place } }
    {
        Refusal {
            reason: self,
            place,
        }
    }
}

// A refusal: its reason, and the place that the reply table gives with it, 0 where it gives none.
#[derive(Clone, Copy, PartialEq, Eq)]
pub struct Refusal {
    pub reason: Reason,
    pub place: usize,
}
