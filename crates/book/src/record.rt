// The records of a book, one after the other.
ghost use Rattle.std.specs.Prelude.{◌≡◌, ◌+◌, ◌-◌, ◌≤◌, ◌<◌, length, IfOk};
ghost use Rattle.std.specs.Iterator.{at_most};
ghost use Rattle.book.specs.Format.{byte, record_size};

use crate::replies::Reason;
use crate::{ARC, END, RULE, STATE, record_size};

// A record that stands whole in its book, of a known kind.
#[derive(Clone, Copy)]
pub struct Record<'a> {
    pub book: &'a [u8],
    // Where its kind byte stands.
    pub at: usize,
    pub ghost known: { 0 < record_size (byte book.now at) },
    pub ghost whole: { at + record_size (byte book.now at) ≤ length book.now },
}

impl<'a> Record<'a> {
    ghost use Rattle.book.specs.Scanning.{whole_reply};
    ghost use Rattle.book.specs.Refusals.{number_of};

    // The record at `at`, or why none stands there.
    pub fn new(book: &'a [u8], at: usize) -> Result<Record<'a>, Reason>
        ensures reply { number_of result ≡ whole_reply book.now at }
        ensures record { IfOk result (λ r. (r.book.now ≡ book.now) × (r.at ≡ at)) }
    {
        if book.len() <= at {
            return Err(Reason::Cut);
        }
        let size = record_size(book[at]);
        if size == 0 {
            return Err(Reason::UnknownKind);
        }
        if book.len() - at < size {
            return Err(Reason::Cut);
        }
        Ok(Record { book, at })
    }

    pub fn kind(&self) -> u8
        ensures { result ≡ byte self.now.book.now self.now.at }
    {
        self.book[self.at]
    }

    pub fn size(&self) -> usize
        ensures { result ≡ record_size (byte self.now.book.now self.now.at) }
    {
        record_size(self.kind())
    }

    // Byte i of the record.
    pub fn byte(&self, i: usize) -> u8
        requires { i < record_size (byte self.now.book.now self.now.at) }
        ensures { result ≡ byte self.now.book.now (self.now.at + i) }
    {
        self.book[self.at + i]
    }
}

// The records that are left of an accepted book, all but the end record.
#[derive(Drop)]
pub struct Records<'a> {
    pub book: &'a [u8],
    pub at: usize,
}

impl<'a> Iterator for Records<'a> {
    type Item = Record<'a>;

    ghost use Rattle.book.specs.Records.{Steps};

    ghost next_gives = { Steps };

    ghost remaining = { λ r. at_most (length r.book.now - r.at) };

    fn next(&mut self) -> Option<Record<'a>> {
        let record = Record::new(self.book, self.at).ok()?;
        let kind = record.kind(); // by number: document 01, "What form to use where"
        match kind {
            RULE | STATE | ARC => {
                self.at += record.size();
                Some(record)
            }
            END => None,
            0 | 5..=255 => None, // no record has it
        }
    }
}
