// One line of a text, and the text with a place in it.
ghost use Rattle.std.specs.Prelude.{ℕ, ◌≡◌, IfErr};
ghost use Rattle.att.specs.Reading.{final_line, arc_line, line_in, line_at};
ghost use Rattle.att.specs.Results.{StateRead, line_read, line_found, line_advanced, place_after};

use crate::fields::{Unread, cut, field_count, number, span};
use book::replies::{Reason, Refusal};

// Ends each line.
const NEWLINE: u8 = b'\n';

// The highest label: "label k means symbol k - 1".
const LABELS: u16 = book::SYMBOLS as u16;

// What a good line says.
#[derive(Clone, Copy)]
pub enum Line {
    Final { state: u16 },
    Arc { from: u16, to: u16, symbol: u8 },
}

impl Line {
    ghost use Rattle.att.specs.Text.{arc_one};
    ghost use Rattle.att.specs.Results.{said};

    // How many arcs it gives.
    pub fn arcs(self) -> usize
        ensures { result ≡ arc_one (said self) }
    {
        match self {
            Line::Final { .. } => 0,
            Line::Arc { .. } => 1,
        }
    }
}

// The text and a place in it, kept together.
#[derive(Clone, Copy)]
pub struct Lines<'a> {
    text: &'a [u8],
    at: usize,
}

// A state's field.
fn state(f: &[u8]) -> Result<u16, Reason>
    ensures { StateRead f.now result }
{
    number(f).map_err(|_| Reason::BadLine)
}

// A line of one field.
fn final_line(l: &[u8]) -> Result<Line, Reason>
    ensures { (next : ℕ) → line_read result next ≡ final_line l.now next }
{
    let (f, _) = cut(l);
    Ok(Line::Final { state: state(f)? })
}

// A line of three fields.
fn arc_line(l: &[u8]) -> Result<Line, Reason>
    ensures { (next : ℕ) → line_read result next ≡ arc_line l.now next }
{
    let (f1, rest) = cut(l);
    let (f2, rest) = cut(rest);
    let (f3, _) = cut(rest);
    let from = state(f1)?;
    let to = state(f2)?;
    match number(f3) {
        Ok(0) => Err(Reason::BadLabel), // the empty word
        Ok(k) => {
            if LABELS < k {
                return Err(Reason::BadLabel); // no symbol
            }
            let symbol = (k - 1) as u8;
            Ok(Line::Arc { from, to, symbol })
        }
        Err(Unread::TooHigh) => Err(Reason::BadLabel), // no symbol
        Err(Unread::NoNumber) => Err(Reason::BadLine),
    }
}

// A line without its newline; `ended` where it has one: no switch but a fact about the line, as in the believed definition `line_in`.
fn line_in(l: &[u8], ended: bool) -> Result<Line, Reason>
    ensures { (next : ℕ) → line_read result next ≡ line_in l.now ended next }
{
    let n = field_count(l);
    if n == 2 || n == 4 {
        return Err(Reason::NoAcceptor); // with its weight
    }
    if !ended {
        return Err(Reason::BadLine); // no newline
    }
    match n {
        1 => final_line(l),
        3 => arc_line(l),
        _ => Err(Reason::BadLine),
    }
}

// The line that starts at `at`, and the place of the next; None at the end.
fn line_at(text: &[u8], at: usize) -> Result<Option<(Line, usize)>, Reason>
    ensures { line_found result ≡ line_at text.now at }
{
    if text.len() <= at {
        return Ok(None);
    }
    let rest = &text[at..];
    let e = span(rest, NEWLINE);
    let line = line_in(&rest[..e], e < rest.len())?;
    Ok(Some((line, at + e + 1)))
}

impl<'a> Lines<'a> {
    // The text from its front on.
    pub fn new(text: &'a [u8]) -> Lines<'a>
        ensures text { result.text.now ≡ text.now }
        ensures at { result.at ≡ 0 }
    {
        Lines { text, at: 0 }
    }

    // One line more: the line at the place, which moves on. At the end and at a faulty line, which is refused with its place, it stays.
    pub fn advance(&mut self) -> Result<Option<Line>, Refusal>
        ensures line { line_advanced result self.new.at ≡ line_at self.old.text.now self.old.at }
        ensures text { self.new.text.now ≡ self.old.text.now }
        ensures at { self.new.at ≡ place_after (line_advanced result self.new.at) self.old.at }
        ensures place { IfErr result (λ e. e.place ≡ self.old.at) }
    {
        match line_at(self.text, self.at) {
            Ok(Some((line, next))) => {
                self.at = next;
                Ok(Some(line))
            }
            Ok(None) => Ok(None),
            Err(reason) => Err(reason.at(self.at)),
        }
    }
}
