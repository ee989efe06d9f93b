// A line's fields, and a field as a decimal number.
ghost use Rattle.std.specs.Prelude.{◌≡◌, ◌+◌, ◌-◌, ◌*◌, ◌≤◌, length};
ghost use Rattle.att.specs.Fields.{tab, digit_zero, digit_nine, before, past, field_count};
ghost use Rattle.att.specs.Numbers.{capped, read_number};
ghost use Rattle.att.specs.Results.{number_read};

// Between the fields of a line.
const TAB: u8 = b'\t';

// Why a field is no number that a state may have.
#[derive(Clone, Copy)]
pub enum Unread {
    NoNumber,
    TooHigh, // above 65,535, however long
}

// How many bytes stand before the first b.
pub fn span(s: &[u8], b: u8) -> usize
    ensures { result ≡ length (before b s.now) }
{
    s.iter().position(|x| *x == b).unwrap_or(s.len())
}

// The field at the front of a line, and what follows it.
pub fn cut(l: &[u8]) -> (&[u8], &[u8])
    ensures field { result.0.now ≡ before tab l.now }
    ensures rest { result.1.now ≡ past tab l.now }
{
    let e = span(l, TAB);
    (&l[..e], l.get(e + 1..).unwrap_or(&[]))
}

pub fn field_count(l: &[u8]) -> usize
    ensures { result ≡ field_count l.now }
{
    // a sum, since `filter` and `count` take half as long again where tabs are many
    1 + l.iter().map(|x| usize::from(*x == TAB)).sum::<usize>()
}

// A decimal number; zeros may lead.
pub fn number(f: &[u8]) -> Result<u16, Unread>
    ensures { number_read result ≡ read_number f.now }
{
    if f.is_empty() || !f.iter().all(|d| d.is_ascii_digit()) {
        return Err(Unread::NoNumber);
    }
    let mut v = 0;
    for d in f {
        v = more(v, *d)?;
    }
    Ok(v)
}

// The digit d after digits that are worth v.
fn more(v: u16, d: u8) -> Result<u16, Unread>
    requires { (digit_zero ≤ d) × (d ≤ digit_nine) }
    ensures { number_read result ≡ capped (v * 10 + (d - digit_zero)) }
{
    let tens = v.checked_mul(10).ok_or(Unread::TooHigh)?;
    tens.checked_add(u16::from(d - b'0')).ok_or(Unread::TooHigh)
}
