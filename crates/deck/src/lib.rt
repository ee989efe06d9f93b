// The C face: one function for each public operation, with that operation's contract. A slice passes as a pointer and its length in elements, and
// an answer as numbers, the reply among them: C has no Result.
#![tactic(auto)]

ghost use Rattle.std.specs.Prelude.{◌≡◌};
ghost use Rattle.book.specs.Reading.{check_def};
ghost use Rattle.sets.specs.Workspace.{build_leaves, build_def};
ghost use Rattle.rewriter.specs.Replies.{rewrite_leaves, rewrite_def, account_leaves, account_def};
ghost use Rattle.rewriter.specs.Show.{bounds_of};
ghost use Rattle.heat.specs.Heats.{heat_leaves, heat_def};
ghost use Rattle.att.specs.Text.{import_leaves, import_def};
ghost use Rattle.deck.specs.Plain.{plain_checked, plain_built, plain_rewritten, plain_accounted, plain_bounds};

// CHECK's answer.
#[repr(C)]
#[derive(Clone, Copy)]
pub struct CChecked {
    pub reply: u8, // 0, or 1 to 8: include/qafrendi.h names them
    pub place: usize, // the offset in the book at which it was refused, 0 with reply 0
    pub rules: usize, // the counts of an accepted book, 0 with every other reply
    pub states: usize,
    pub arcs: usize,
}

// Each conversion names the fields of its own type, once.
impl From<book::Checked> for CChecked {
    ghost from_gives = { λ r c. plain_checked c ≡ r };

    fn from(r: book::Checked) -> CChecked {
        CChecked {
            reply: r.reply,
            place: r.place,
            rules: r.rules,
            states: r.states,
            arcs: r.arcs,
        }
    }
}

// BUILD's answer.
#[repr(C)]
#[derive(Clone, Copy)]
pub struct CBuilt {
    pub reply: u8, // 0, CHECK's 1 to 8, or 11, 13, 14
    pub place: usize, // the place of CHECK's refusal, 0 with every other reply
    pub left: usize, // the counts of left and of right sets, at most 256 each; 0 with every reply but 0
    pub right: usize,
}

impl From<sets::Built> for CBuilt {
    ghost from_gives = { λ r c. plain_built c ≡ r };

    fn from(r: sets::Built) -> CBuilt {
        CBuilt {
            reply: r.reply,
            place: r.place,
            left: r.left,
            right: r.right,
        }
    }
}

// REWRITE's answer.
#[repr(C)]
#[derive(Clone, Copy)]
pub struct CRewritten {
    pub reply: u8, // 0, BUILD's replies, or 9, 10, 12, 15 of the tape and its buffers
    pub place: usize, // where the book or the tape was refused, with 15 the symbols that the output needs; 0 with every other reply
    pub length: usize, // how many symbols, and as many origins, stand in front of the two buffers; 0 with every reply but 0
    pub taken: usize, // how many stretches were rewritten
}

impl From<rewriter::Rewritten> for CRewritten {
    ghost from_gives = { λ r c. plain_rewritten c ≡ r };

    fn from(r: rewriter::Rewritten) -> CRewritten {
        CRewritten {
            reply: r.reply,
            place: r.place,
            length: r.length,
            taken: r.taken,
        }
    }
}

// ACCOUNT's answer.
#[repr(C)]
#[derive(Clone, Copy)]
pub struct CAccounted {
    pub reply: u8, // as REWRITE's
    pub place: usize, // as REWRITE's, with 15 the words that the account needs
    pub candidates: usize, // how many lines stand in front of the buffer; 0 with every reply but 0
}

impl From<rewriter::Accounted> for CAccounted {
    ghost from_gives = { λ r c. plain_accounted c ≡ r };

    fn from(r: rewriter::Accounted) -> CAccounted {
        CAccounted {
            reply: r.reply,
            place: r.place,
            candidates: r.candidates,
        }
    }
}

// SHOW's answer: the part of the tape from `start` up to and not including `end`; both 0 where the line shows none.
#[repr(C)]
#[derive(Clone, Copy)]
pub struct CStretch {
    pub start: usize,
    pub end: usize,
}

impl From<rewriter::shown::Bounds> for CStretch {
    ghost from_gives = { λ r c. plain_bounds c ≡ r };

    fn from(r: rewriter::shown::Bounds) -> CStretch {
        CStretch {
            start: r.start,
            end: r.end,
        }
    }
}

#[unsafe(no_mangle)]
pub extern "C" fn qafrendi_check(book: &[u8]) -> CChecked
    ensures { plain_checked result ≡ check_def book.now }
{
    CChecked::from(book::check(book))
}

#[unsafe(no_mangle)]
pub extern "C" fn qafrendi_build(book: &[u8], rows: &mut [u8], sets: &mut [u64]) -> CBuilt
    ensures { build_leaves (plain_built result) rows.new sets.new ≡ build_def book.now rows.old sets.old }
{
    CBuilt::from(sets::build(book, rows, sets))
}

// As every export: the operation's own parameters, since C calls it.
#[unsafe(no_mangle)]
pub extern "C" fn qafrendi_rewrite(
    book: &[u8],
    tape: &[u8],
    rows: &mut [u8],
    sets: &mut [u64],
    scratch: &mut [u8],
    out: &mut [u8],
    origins: &mut [u16],
) -> CRewritten
    ensures { rewrite_leaves (plain_rewritten result) rows.new sets.new scratch.new out.new origins.new
        ≡ rewrite_def book.now tape.now rows.old
        sets.old scratch.old out.old origins.old }
{
    CRewritten::from(rewriter::rewrite(book, tape, rows, sets, scratch, out, origins))
}

#[unsafe(no_mangle)]
pub extern "C" fn qafrendi_account(
    book: &[u8],
    tape: &[u8],
    rows: &mut [u8],
    sets: &mut [u64],
    scratch: &mut [u8],
    lines: &mut [u16],
) -> CAccounted
    ensures { account_leaves (plain_accounted result) rows.new sets.new scratch.new lines.new
        ≡ account_def book.now tape.now rows.old sets.old scratch.old lines.old }
{
    CAccounted::from(rewriter::account(book, tape, rows, sets, scratch, lines))
}

// A part of the tape cannot be handed to C as a reference, so C gets its bounds, by the function that SHOW cuts the tape with.
#[unsafe(no_mangle)]
pub extern "C" fn qafrendi_show(tape_length: usize, lines: &[u16], line: usize) -> CStretch
    ensures { plain_bounds result ≡ bounds_of tape_length lines.now line }
{
    CStretch::from(rewriter::shown::bounds_of(tape_length, lines, line))
}

// The lanes and the answer are the operation's own types, which have C's layout.
#[unsafe(no_mangle)]
pub extern "C" fn qafrendi_heat(
    book: &[u8],
    tapes: &[u8],
    lanes: &mut [heat::Lane],
    rows: &mut [u8],
    sets: &mut [u64],
    scratch: &mut [u8],
    out: &mut [u8],
    origins: &mut [u16],
) -> heat::Heated
    ensures { heat_leaves result lanes.new rows.new sets.new scratch.new out.new origins.new
        ≡ heat_def book.now tapes.now lanes.old rows.old sets.old
        scratch.old out.old origins.old }
{
    heat::heat(book, tapes, lanes, rows, sets, scratch, out, origins)
}

// The answer is the operation's own type, as that of a heat.
#[unsafe(no_mangle)]
pub extern "C" fn qafrendi_import(text: &[u8], part: u8, first: u8, out: &mut [u8]) -> book::Written
    ensures { import_leaves result out.new ≡ import_def text.now part first out.old }
{
    att::import(text, part, first, out)
}
