// Document 01's program: tapes as lines of digits, 0 to 9 and a to v, on standard input, each rewritten and accounted for by the house book.
#![tactic(auto)]

ghost use Rattle.std.specs.Prelude.{◌≡◌, ◌≤◌, ◌-◌, ◌++◌, length, take, IfOk};
ghost use Rattle.arrayvec.specs.ArrayVec.{array_vec_len};
ghost use Rattle.pads.specs.Digits.{symbol_of, symbols_of};

mod print; // print.rt: the lines printed

use arrayvec::ArrayVec;
use book::SYMBOLS;
use print::LETTERS;
use rewriter::{LINE_WORDS, LONGEST_TAPE};
use std::io;
use std::io::{Read, Write};
use text::Text;

// The bytes of one read, and the bytes printed at once.
const CHUNK: usize = 65536;

// The symbols that are kept of a line: one more than a tape may have, which is all that its refusal asks.
const KEPT: usize = LONGEST_TAPE + 1;

const SCRATCH: usize = LONGEST_TAPE + 1;

// No output of the house book is longer than its tape (`house_fits` of proofs/HouseFits).
const OUT: usize = LONGEST_TAPE;

// "It gives the account 6,000 words."
const ACCOUNT: usize = 6000;

// The last letter that is a digit.
const LAST_LETTER: u8 = b'a' + (SYMBOLS - LETTERS - 1);

// The line that has begun: its first symbols, as many as are kept.
type Tape = ArrayVec<u8, KEPT>;

// The symbol of a character, by hand: the library's `to_digit` reads capitals too, which are other characters here (`symbol_of`).
#[tactic(auto, unfolding(crate::specs::Digits::symbol_of))]
fn symbol(b: u8) -> u8
    ensures { result ≡ symbol_of b }
{
    match b {
        b'0'..=b'9' => b - b'0',
        b'a'..=LAST_LETTER => b - (b'a' - LETTERS),
        _ => SYMBOLS,
    }
}

// The lines of REWRITE: W and O, or X; whether the tape was accepted.
fn rewrite_tape(text: &mut Text<'_, impl Print>, tape: &[u8]) -> io::Result<bool>
    ensures same { (text.new.bytes.ghost_name ≡ text.old.bytes.ghost_name) × (text.new.rt ≡ text.old.rt) }
    ensures same_length { length text.new.bytes.now ≡ length text.old.bytes.now }
{
    let book = house::house_book();
    let mut rows = [0u8; sets::ROW_BYTES];
    let mut sets = [0u64; sets::SET_WORDS];
    let mut scratch = [0u8; SCRATCH];
    let mut out = [0u8; OUT];
    let mut origins = [0u16; OUT];
    match rewriter::try_rewrite(
        &book,
        tape,
        &mut rows,
        &mut sets,
        &mut scratch,
        &mut out,
        &mut origins,
    ) {
        Ok(size) => {
            let n = size.length;
            print::put_output(text, size.taken, &out[..n], &origins[..n])?;
            Ok(true)
        }
        Err(refusal) => {
            print::put_refusal(text, refusal)?;
            Ok(false)
        }
    }
}

// The lines of ACCOUNT: a C line for each candidate, or X.
fn account_tape(text: &mut Text<'_, impl Print>, tape: &[u8]) -> io::Result<()>
    ensures same { (text.new.bytes.ghost_name ≡ text.old.bytes.ghost_name) × (text.new.rt ≡ text.old.rt) }
    ensures same_length { length text.new.bytes.now ≡ length text.old.bytes.now }
{
    let book = house::house_book();
    let mut rows = [0u8; sets::ROW_BYTES];
    let mut sets = [0u64; sets::SET_WORDS];
    let mut scratch = [0u8; SCRATCH];
    let mut lines = [0u16; ACCOUNT];
    match rewriter::try_account(&book, tape, &mut rows, &mut sets, &mut scratch, &mut lines) {
        Ok(candidates) => print::put_account(text, &lines[..LINE_WORDS * candidates]),
        Err(refusal) => print::put_refusal(text, refusal),
    }
}

// All lines of one tape. "A refusal prints X, number, place, and ends that tape; for a short account it follows W and O."
fn answer(text: &mut Text<'_, impl Print>, tape: &[u8]) -> io::Result<()>
    ensures same { (text.new.bytes.ghost_name ≡ text.old.bytes.ghost_name) × (text.new.rt ≡ text.old.rt) }
    ensures same_length { length text.new.bytes.now ≡ length text.old.bytes.now }
{
    if rewrite_tape(text, tape)? {
        account_tape(text, tape)?;
    }
    Ok(())
}

// Adds the characters of a line's next piece to the tape, as many as are kept.
#[tactic(auto, using(crate::proofs::Kept::next, crate::proofs::Kept::all))]
fn keep(tape: &mut Tape, piece: &[u8])
    ensures { tape.new.items ≡ tape.old.items ++ take (KEPT - array_vec_len tape.old) (symbols_of piece.now) }
{
    for b in piece {
        if tape.is_full() {
            return;
        }
        tape.push(symbol(*b));
    }
}

// Answers each line that ends in the chunk.
fn answer_lines(text: &mut Text<'_, impl Print>, tape: &mut Tape, chunk: &[u8]) -> io::Result<()>
    ensures same { (text.new.bytes.ghost_name ≡ text.old.bytes.ghost_name) × (text.new.rt ≡ text.old.rt) }
    ensures same_length { length text.new.bytes.now ≡ length text.old.bytes.now }
{
    let mut rest = chunk;
    while let Some(end) = rest.iter().position(|b| *b == b'\n') {
        keep(tape, &rest[..end]);
        answer(text, tape.as_slice())?;
        tape.clear();
        rest = &rest[end + 1..];
    }
    keep(tape, rest);
    Ok(())
}

// One read. Where it fails, the lines answered so far go out.
fn read_some(
    reader: &mut impl Read,
    chunk: &mut [u8],
    text: &mut Text<'_, impl Print>,
) -> io::Result<usize>
    ensures within { IfOk result (λ got. got ≤ length chunk.new) }
    ensures same { (text.new.bytes.ghost_name ≡ text.old.bytes.ghost_name) × (text.new.rt ≡ text.old.rt) }
    ensures same_length { length text.new.bytes.now ≡ length text.old.bytes.now }
{
    let got = reader.read(chunk);
    if got.is_err() {
        text.flush()?;
    }
    got
}

// "A last line needs no newline." An empty one is no line. Then what is left of the text goes out.
fn finish(text: &mut Text<'_, impl Print>, tape: &Tape) -> io::Result<()>
    ensures same { (text.new.bytes.ghost_name ≡ text.old.bytes.ghost_name) × (text.new.rt ≡ text.old.rt) }
    ensures same_length { length text.new.bytes.now ≡ length text.old.bytes.now }
{
    if !tape.is_empty() {
        answer(text, tape.as_slice())?;
    }
    text.flush()
}

// Reads to the end. Nothing says that the input ends, so the reads are counted, up to a number that no run uses up.
fn run(
    reader: &mut impl Read,
    chunk: &mut [u8],
    text: &mut Text<'_, impl Print>,
    tape: &mut Tape,
) -> io::Result<()>
    ensures same { (text.new.bytes.ghost_name ≡ text.old.bytes.ghost_name) × (text.new.rt ≡ text.old.rt) }
    ensures same_length { length text.new.bytes.now ≡ length text.old.bytes.now }
{
    for _ in 0..u64::MAX {
        let got = read_some(reader, chunk, text)?;
        if got == 0 {
            break;
        }
        answer_lines(text, tape, &chunk[..got])?;
    }
    finish(text, tape)
}

fn main(rt: HostRuntime) -> io::Result<()> {
    let mut chunk = [0u8; CHUNK];
    let mut bytes = [0u8; CHUNK];
    let mut text = Text::new(&rt, &mut bytes);
    let mut tape = Tape::new();
    run(&mut rt.reader(), &mut chunk, &mut text, &mut tape)
}
