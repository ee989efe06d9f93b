// The lines that the program prints: W, O, C and X. Numbers go by `put_number`: what `write!` puts into a text no contract says.
ghost use Rattle.std.specs.Prelude.{◌≡◌, ◌++◌, length, OnOk};
ghost use Rattle.text.specs.Text.{holds, put_all};
ghost use Rattle.pads.specs.Digits.{digit_of};
ghost use Rattle.pads.specs.Lines.{pair, numbers_line, w_line, o_line, x_line};

use book::LAST_SYMBOL;
use book::replies::Refusal;
use rewriter::LINE_WORDS;
use std::io;
use text::Text;

// The symbol of the first letter.
pub(crate) const LETTERS: u8 = 10;

// The character of a symbol, by hand as its other direction: the library's `from_digit` gives a `char`, and none for 32 (`digit_of`).
#[tactic(auto, unfolding(crate::specs::Digits::digit_of))]
fn digit(s: u8) -> u8
    ensures { result ≡ digit_of s }
{
    match s {
        0..=9 => s + b'0',
        LETTERS..=LAST_SYMBOL => s + (b'a' - LETTERS),
        _ => b'?',
    }
}

// Each number with a blank before it, and the line's end.
#[tactic(auto, using(crate::proofs::Lines::next_number), unfolding(text::specs::Text::put_all))]
fn put_numbers(text: &mut Text<'_, impl Print>, numbers: &[u16]) -> io::Result<()>
    ensures put { OnOk result (holds text.new.bytes.now text.new.used ≡ put_all (holds text.old.bytes.now text.old.used) (numbers_line numbers.now)) }
    ensures same { (text.new.bytes.ghost_name ≡ text.old.bytes.ghost_name) × (text.new.rt ≡ text.old.rt) }
    ensures same_length { length text.new.bytes.now ≡ length text.old.bytes.now }
{
    for number in numbers {
        text.put(b' ')?;
        text.put_number(u64::from(*number))?;
    }
    text.put(b'\n')
}

// Two numbers, a blank between them.
#[tactic(auto, using(text::proofs::Putting::all_append), unfolding(text::specs::Text::put_all))]
fn put_pair(text: &mut Text<'_, impl Print>, a: u64, b: u64) -> io::Result<()>
    ensures put { OnOk result (holds text.new.bytes.now text.new.used ≡ put_all (holds text.old.bytes.now text.old.used) (pair a b)) }
    ensures same { (text.new.bytes.ghost_name ≡ text.old.bytes.ghost_name) × (text.new.rt ≡ text.old.rt) }
    ensures same_length { length text.new.bytes.now ≡ length text.old.bytes.now }
{
    text.put_number(a)?;
    text.put(b' ')?;
    text.put_number(b)
}

// W: output length, stretches taken, symbols.
#[tactic(auto, using(text::proofs::Putting::all_append), unfolding(text::specs::Text::put_all))]
fn put_w(text: &mut Text<'_, impl Print>, taken: usize, out: &[u8]) -> io::Result<()>
    ensures put { OnOk result (holds text.new.bytes.now text.new.used ≡ put_all (holds text.old.bytes.now text.old.used) (w_line taken out.now)) }
    ensures same { (text.new.bytes.ghost_name ≡ text.old.bytes.ghost_name) × (text.new.rt ≡ text.old.rt) }
    ensures same_length { length text.new.bytes.now ≡ length text.old.bytes.now }
{
    text.put_all(b"W ")?;
    put_pair(text, out.len() as u64, taken as u64)?;
    text.put(b' ')?;
    if out.is_empty() {
        return text.put_all(b"-\n");
    }
    for s in out {
        text.put(digit(*s))?;
    }
    text.put(b'\n')
}

// O: origins.
#[tactic(auto, using(text::proofs::Putting::all_append), unfolding(text::specs::Text::put_all))]
fn put_o(text: &mut Text<'_, impl Print>, origins: &[u16]) -> io::Result<()>
    ensures put { OnOk result (holds text.new.bytes.now text.new.used ≡ put_all (holds text.old.bytes.now text.old.used) (o_line origins.now)) }
    ensures same { (text.new.bytes.ghost_name ≡ text.old.bytes.ghost_name) × (text.new.rt ≡ text.old.rt) }
    ensures same_length { length text.new.bytes.now ≡ length text.old.bytes.now }
{
    if origins.is_empty() {
        return text.put_all(b"O -\n");
    }
    text.put(b'O')?;
    put_numbers(text, origins)
}

#[tactic(auto, using(text::proofs::Putting::all_append), unfolding(text::specs::Text::put_all))]
pub(crate) fn put_output(
    text: &mut Text<'_, impl Print>,
    taken: usize,
    out: &[u8],
    origins: &[u16],
) -> io::Result<()>
    ensures put { OnOk result (holds text.new.bytes.now text.new.used ≡ put_all (holds text.old.bytes.now text.old.used) (w_line taken out.now ++ o_line origins.now)) }
    ensures same { (text.new.bytes.ghost_name ≡ text.old.bytes.ghost_name) × (text.new.rt ≡ text.old.rt) }
    ensures same_length { length text.new.bytes.now ≡ length text.old.bytes.now }
{
    put_w(text, taken, out)?;
    put_o(text, origins)
}

// C: the words of each candidate.
pub(crate) fn put_account(text: &mut Text<'_, impl Print>, lines: &[u16]) -> io::Result<()>
    ensures same { (text.new.bytes.ghost_name ≡ text.old.bytes.ghost_name) × (text.new.rt ≡ text.old.rt) }
    ensures same_length { length text.new.bytes.now ≡ length text.old.bytes.now }
{
    for words in lines.chunks_exact(LINE_WORDS) {
        text.put(b'C')?;
        put_numbers(text, words)?;
    }
    Ok(())
}

// X: reply number, place.
#[tactic(auto, using(text::proofs::Putting::all_append), unfolding(text::specs::Text::put_all))]
pub(crate) fn put_refusal(text: &mut Text<'_, impl Print>, refusal: Refusal) -> io::Result<()>
    ensures put { OnOk result (holds text.new.bytes.now text.new.used ≡ put_all (holds text.old.bytes.now text.old.used) (x_line refusal)) }
    ensures same { (text.new.bytes.ghost_name ≡ text.old.bytes.ghost_name) × (text.new.rt ≡ text.old.rt) }
    ensures same_length { length text.new.bytes.now ≡ length text.old.bytes.now }
{
    text.put_all(b"X ")?;
    put_pair(
        text,
        u64::from(refusal.reason.number()),
        refusal.place as u64,
    )?;
    text.put(b'\n')
}
