// A text that goes to standard output when it is full: the programs print through it, so that a line costs no call of the system.
#![tactic(auto)]

ghost use Rattle.std.specs.Prelude.{◌≡◌, ℕ, ◌+◌, ◌≤◌, ◌<◌, length, take, decimal, Ok, None, IfOk, OnOk, OnErr};
ghost use Rattle.std.specs.Io.{WritesAtMost};
ghost use Rattle.std.specs.Io.KnownBytes.{Appends, WriteAppends};
ghost use Rattle.text.specs.Text.{holds, put_one, put_all};

use itoa::Buffer;
use std::io;
use std::io::Write;

// What is printed and not yet written out: the bytes, and the place of the next one, which is among them.
#[derive(Drop)]
pub struct Text<'a, P> {
    pub rt: &'a P,
    pub bytes: &'a mut [u8],
    pub used: usize,
    pub ghost room: { used < length bytes.now },
}

// Each method says itself that bytes and handle are the same ones (`same`): that relates two values of the text, which no field can.
impl<'a, P: Print> Text<'a, P> {
    // A text that begins at the front of these bytes.
    pub fn new(rt: &'a P, bytes: &'a mut [u8]) -> Text<'a, P>
        requires { 0 < length bytes.old }
        ensures holds { holds result.bytes.now result.used ≡ holds bytes.old 0 }
        ensures same { (result.bytes.ghost_name ≡ bytes.entry.ghost_name) × (result.rt ≡ rt.entry) }
    {
        Text { rt, bytes, used: 0 }
    }

    // One byte. It stands in the text also where the full text cannot be written; its place is then the last one.
    #[tactic(auto, unfolding(crate::specs::Text::put_one))]
    pub fn put(&mut self, b: u8) -> io::Result<()>
        ensures result_after { OnOk result (holds self.new.bytes.now self.new.used ≡ put_one (holds self.old.bytes.now self.old.used) b) }
        ensures same { (self.new.bytes.ghost_name ≡ self.old.bytes.ghost_name) × (self.new.rt ≡ self.old.rt) }
        ensures stands { self.new.bytes.now ≡ (put_one (holds self.old.bytes.now self.old.used) b).bytes }
        ensures room { self.old.used + 1 < length self.old.bytes.now → (result ≡ Ok tt) × (self.new.used ≡ self.old.used + 1) }
        ensures failed { OnErr result (self.new.used + 1 ≡ length self.new.bytes.now) }
        ensures same_length { length self.new.bytes.now ≡ length self.old.bytes.now }
    {
        let last = self.bytes.len() - 1;
        self.bytes[self.used] = b;
        if self.used == last {
            self.used = self.write_front(self.bytes.len())?;
        } else {
            self.used += 1;
        }
        Ok(())
    }

    // All of `s`. It stops at the first text that cannot be written: the bytes up to there stand.
    #[tactic(auto, using(crate::proofs::Putting::all_front), unfolding(crate::specs::Text::put_all))]
    pub fn put_all(&mut self, s: &[u8]) -> io::Result<()>
        ensures result_after { OnOk result (holds self.new.bytes.now self.new.used ≡ put_all (holds self.old.bytes.now self.old.used) s.now) }
        ensures same { (self.new.bytes.ghost_name ≡ self.old.bytes.ghost_name) × (self.new.rt ≡ self.old.rt) }
        ensures stands { (k : ℕ) × (k ≤ length s.now) × (self.new.bytes.now ≡ (put_all (holds self.old.bytes.now self.old.used) (take k s.now)).bytes) }
        ensures room { self.old.used + length s.now < length self.old.bytes.now → (result ≡ Ok tt) × (self.new.used ≡ self.old.used + length s.now) }
        ensures failed { OnErr result (self.new.used + 1 ≡ length self.new.bytes.now) }
        ensures same_length { length self.new.bytes.now ≡ length self.old.bytes.now }
    {
        for b in s {
            self.put(*b)?;
        }
        Ok(())
    }

    // The decimal digits of a number, as `put_all` puts them.
    pub fn put_number(&mut self, x: u64) -> io::Result<()>
        ensures result_after { OnOk result (holds self.new.bytes.now self.new.used ≡ put_all (holds self.old.bytes.now self.old.used) (decimal x)) }
        ensures same { (self.new.bytes.ghost_name ≡ self.old.bytes.ghost_name) × (self.new.rt ≡ self.old.rt) }
        ensures stands { (k : ℕ) × (k ≤ length (decimal x)) × (self.new.bytes.now ≡ (put_all (holds self.old.bytes.now self.old.used) (take k (decimal x))).bytes) }
        ensures room { self.old.used + length (decimal x) < length self.old.bytes.now → (result ≡ Ok tt) × (self.new.used ≡ self.old.used + length (decimal x)) }
        ensures failed { OnErr result (self.new.used + 1 ≡ length self.new.bytes.now) }
        ensures same_length { length self.new.bytes.now ≡ length self.old.bytes.now }
    {
        let mut digits = Buffer::new();
        self.put_all(digits.format(x).as_bytes())
    }

    // The first n bytes; the place of the next one is the front again.
    fn write_front(&self, n: usize) -> io::Result<usize>
        requires { n ≤ length self.now.bytes.now }
        ensures { IfOk result (λ next. next ≡ 0) }
    {
        flush(self.rt, self.bytes, n)
    }
}

// For `write!`: what is formatted is put.
impl<P: Print> Write for Text<'_, P> {
    fn write(&mut self, buf: &[u8]) -> io::Result<usize>
        ensures put { OnOk result (holds self.new.bytes.now self.new.used ≡ put_all (holds self.old.bytes.now self.old.used) buf.now) }
        ensures same { (self.new.bytes.ghost_name ≡ self.old.bytes.ghost_name) × (self.new.rt ≡ self.old.rt) }
        ensures all { IfOk result (λ n. n ≡ length buf.now) }
        ensures bound { WritesAtMost result buf.now }
        ensures bytes { WriteAppends None None result buf.now }
        ensures stands { (k : ℕ) × (k ≤ length buf.now) × (self.new.bytes.now ≡ (put_all (holds self.old.bytes.now self.old.used) (take k buf.now)).bytes) }
        ensures failed { OnErr result (self.new.used + 1 ≡ length self.new.bytes.now) }
        ensures same_length { length self.new.bytes.now ≡ length self.old.bytes.now }
    {
        self.write_all(buf)?;
        Ok(buf.len())
    }

    // The trait's own would put bytes again where a write was interrupted.
    fn write_all(&mut self, buf: &[u8]) -> io::Result<()>
        ensures put { OnOk result (holds self.new.bytes.now self.new.used ≡ put_all (holds self.old.bytes.now self.old.used) buf.now) }
        ensures same { (self.new.bytes.ghost_name ≡ self.old.bytes.ghost_name) × (self.new.rt ≡ self.old.rt) }
        ensures bytes { OnOk result (Appends None None buf.now) }
        ensures stands { (k : ℕ) × (k ≤ length buf.now) × (self.new.bytes.now ≡ (put_all (holds self.old.bytes.now self.old.used) (take k buf.now)).bytes) }
        ensures failed { OnErr result (self.new.used + 1 ≡ length self.new.bytes.now) }
        ensures same_length { length self.new.bytes.now ≡ length self.old.bytes.now }
    {
        self.put_all(buf)
    }

    // Writes out what the text holds; it begins anew at its front.
    fn flush(&mut self) -> io::Result<()>
        ensures written { OnOk result (self.new.used ≡ 0) }
        ensures same { (self.new.bytes.ghost_name ≡ self.old.bytes.ghost_name) × (self.new.rt ≡ self.old.rt) }
        ensures failed { OnErr result (self.new.used ≡ self.old.used) }
        ensures stands { self.new.bytes.now ≡ self.old.bytes.now }
    {
        let used = self.used;
        self.used = self.write_front(used)?;
        Ok(())
    }
}

// Writes what the text holds below `used`; the place of the next byte is its front again. This takes the two apart, since `used` may be the
// length, as it is in no `Text`: the clause `used ≤ length text.now` and `one_flush` hold it.
pub fn flush(rt: &impl Print, text: &[u8], used: usize) -> io::Result<usize>
    requires { used ≤ length text.now }
    ensures { IfOk result (λ next. next ≡ 0) }
{
    rt.write_all(&text[..used])?;
    Ok(0)
}
