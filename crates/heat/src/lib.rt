// All lanes of a heat: one book, and up to ten tapes in one common buffer.
#![tactic(auto)]

ghost use Rattle.std.specs.Prelude.{◌≡◌, ◌+◌, ◌<◌, ◌≤◌, length, MatchOption, IfOk};
ghost use Rattle.book.specs.Reading.{book_of};
ghost use Rattle.sets.specs.Tables.{AsBuilt};
ghost use Rattle.heat.specs.Lanes.{tape_of, leaving, lane_leaves, lane_def};
ghost use Rattle.heat.specs.Heats.{heat_leaves, heat_def};
ghost use Rattle.heat.specs.Begins.{heated_of, answered_by, begins, begin_def};

use book::replies::{Reason, Refusal};
use rewriter::{Rewritten, Size};

// "up to ten tapes"
pub const MOST_LANES: usize = 10;

// One lane, with the fields that C has: numbers, and no Result. The caller writes where its tape stands, which is never changed; the other fields are
// what the lane gets back.
#[repr(C)]
#[derive(Clone, Copy)]
pub struct Lane {
    // Where the lane's tape begins in the common buffer, and how many symbols it has: any numbers, for a stretch that leaves the buffer is 17.
    pub start: usize,
    pub length: usize,
    // How many symbols, and origins, stand in the common outputs after those of the lanes before; 0 on a refusal.
    pub out: usize,
    // How many stretches were taken; 0 on a refusal.
    pub taken: usize,
    // 0 for accepted, else 17, 9, 10, 12 or 15: callers test it lane by lane.
    pub reply: u8,
    // With 10 a position of the lane's own tape, with 15 the symbols that the lane needs, else 0.
    pub place: usize,
}

impl Lane {
    // The lane's stretch of the common buffer, unless it leaves it. No sum is made of the two numbers: it could wrap.
    fn tape<'a>(&self, tapes: &'a [u8]) -> Option<&'a [u8]>
        ensures { MatchOption result (length tapes.now < self.now.start + self.now.length)
            (λ t. (self.now.start + self.now.length ≤ length tapes.now) × (t.now ≡ tape_of tapes.now self.now)) }
    {
        tapes.get(self.start..)?.get(..self.length)
    }

    // What a lane gets back.
    fn answer(&mut self, done: Result<Size, Refusal>)
        ensures { self.new ≡ answered_by self.old done }
    {
        let answer = Rewritten::from(done);
        self.out = answer.length;
        self.taken = answer.taken;
        self.reply = answer.reply;
        self.place = answer.place;
    }
}

// The answer of the whole call, as C has it.
#[repr(C)]
#[derive(Clone, Copy)]
pub struct Heated {
    // 0 where the lanes have their replies; else 16 or BUILD's refusal, and no lane was touched.
    pub reply: u8,
    // An offset of the book with 1 to 8, else 0.
    pub place: usize,
}

impl From<Result<(), Refusal>> for Heated {
    ghost from_gives = { λ r h. h ≡ heated_of r };

    fn from(r: Result<(), Refusal>) -> Heated {
        match r {
            Ok(_) => Heated { reply: 0, place: 0 },
            Err(refusal) => Heated {
                reply: refusal.reason.number(),
                place: refusal.place,
            },
        }
    }
}

// Before the lanes: 16, then BUILD, once for all of them. The book is read here, for that counts the rules that each lane's passes are lent.
#[tactic(auto, using(crate::proofs::Begins::begin_handed_on, rewriter::proofs::MakeReady::number_over))]
fn begin(book: &[u8], lanes: usize, rows: &mut [u8], sets: &mut [u64]) -> Result<usize, Refusal>
    ensures begun { begins (heated_of result) rows.new sets.new ≡ begin_def book.now lanes rows.old sets.old }
    ensures built { IfOk result (λ rules. AsBuilt book.now rows.new sets.new × (rules ≡ length (book_of book.now).words)) }
{
    if MOST_LANES < lanes {
        return Err(Reason::ManyLanes.at(0));
    }
    let counts = book::read(book)?;
    if rows.len() < sets::ROW_BYTES {
        return Err(Reason::ShortWorkspace.at(0));
    }
    if sets.len() < sets::SET_WORDS {
        return Err(Reason::ShortWorkspace.at(0));
    }
    sets::number_book(book, rows, sets)?;
    Ok(counts.rules)
}

// One lane after the build: 17, or its tape's REWRITE into the outputs from the room used so far on. The room that is used then. Workspace, scratch and
// outputs are slices of their own, as documents 01 and 02 have them lent.
fn run_lane(
    book: &[u8],
    tapes: &[u8],
    lane: &mut Lane,
    from: usize,
    rules: usize,
    rows: &[u8],
    sets: &[u64],
    scratch: &mut [u8],
    out: &mut [u8],
    origins: &mut [u16],
) -> usize
    requires room { (from ≤ length out.old) × (from ≤ length origins.old) }
    requires built { AsBuilt book.now rows.now sets.now × (rules ≡ length (book_of book.now).words) }
    ensures { lane_leaves lane.new (leaving result scratch.new out.new origins.new)
        ≡ lane_def book.now tapes.now rows.now sets.now lane.old
        (leaving from scratch.old out.old origins.old) }
{
    let Some(tape) = lane.tape(tapes) else {
        lane.answer(Err(Reason::Outside.at(0)));
        return from;
    };
    let done = rewriter::rewrite_built(
        book,
        tape,
        rules,
        rows,
        sets,
        scratch,
        &mut out[from..],
        &mut origins[from..],
    );
    lane.answer(done);
    from + lane.out
}

// Document 02's HEAT: any book, common buffer, lanes and buffers get their replies.
pub fn heat(
    book: &[u8],
    tapes: &[u8],
    lanes: &mut [Lane],
    rows: &mut [u8],
    sets: &mut [u64],
    scratch: &mut [u8],
    out: &mut [u8],
    origins: &mut [u16],
) -> Heated
    ensures { heat_leaves result lanes.new rows.new sets.new scratch.new out.new origins.new
        ≡ heat_def book.now tapes.now lanes.old rows.old sets.old
        scratch.old out.old origins.old }
{
    Heated::from(try_heat(book, tapes, lanes, rows, sets, scratch, out, origins))
}

// HEAT as a result: that the lanes have their replies, or the refusal of the whole call.
#[tactic(auto, using(crate::proofs::Begins::heat_handed_on, rewriter::proofs::MakeReady::number_over))]
pub fn try_heat(
    book: &[u8],
    tapes: &[u8],
    lanes: &mut [Lane],
    rows: &mut [u8],
    sets: &mut [u64],
    scratch: &mut [u8],
    out: &mut [u8],
    origins: &mut [u16],
) -> Result<(), Refusal>
    ensures { heat_leaves (heated_of result) lanes.new rows.new sets.new scratch.new out.new origins.new
        ≡ heat_def book.now tapes.now lanes.old rows.old sets.old
        scratch.old out.old origins.old }
{
    let rules = begin(book, lanes.len(), rows, sets)?;
    let mut used: usize = 0;
    for lane in lanes.iter_mut() {
        used = run_lane(
            book, tapes, lane, used, rules, rows, sets, scratch, out, origins,
        );
    }
    Ok(())
}
