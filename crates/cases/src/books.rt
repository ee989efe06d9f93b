// The books of the cases, a record a line.
ghost use Rattle.std.specs.Prelude.{◌≡◌};
ghost use Rattle.cases.specs.Books.{long_book};

// Each 1 becomes 7 8, with no condition on either side. A record a line, the arc's at 22 and the end's at 27; after the book stands one
// byte more.
pub const PAIR: [u8; 29] = *b"\
    \x01\x02\x07\x08\x00\x00\x00\x00\x00\x00\
    \x02\x00\x03\
    \x02\x01\x01\
    \x02\x01\x02\
    \x02\x02\x03\
    \x03\x01\x01\x01\x02\
    \x04\
    \x00";

pub const PAIR_LENGTH: usize = 28;

// One or more of any symbol become nothing, with no condition on either side. The highest symbols of the arcs stand at 25 and 30.
pub fn long() -> [u8; 33]
    ensures { result ≡ long_book }
{
    let mut book = *b"\
        \x01\x00\x00\x00\x00\x00\x00\x00\x00\x00\
        \x02\x00\x03\
        \x02\x01\x01\
        \x02\x01\x02\
        \x02\x02\x03\
        \x03\x01\x00\x00\x02\
        \x03\x02\x00\x00\x02\
        \x04";
    book[25] = book::LAST_SYMBOL;
    book[30] = book::LAST_SYMBOL;
    book
}
