// The words of a message.
ghost use Rattle.octets.specs.Octets.{Put};
ghost use Rattle.expecting.specs.Words.{what_words, found_words};

use expecting::{Found, What};
use octets::put_word;

pub fn put_what(out: &mut [u8], to: usize, what: What) -> usize
    ensures { Put out.old out.new to (what_words what) result }
{
    match what {
        What::Name => put_word(
            out,
            to,
            b"a name that begins with a small letter is expected",
        ),
        What::Next => put_word(
            out,
            to,
            b"a name that begins with a small letter or the end is expected",
        ),
        What::Open => put_word(out, to, b"`(` is expected right after the name"),
        What::Term => put_word(out, to, b"a name, a variable or a number is expected"),
        What::Digit => put_word(out, to, b"a digit is expected right after `-`"),
        What::Mark => put_word(out, to, b"`,` or `)` is expected"),
        What::Close => put_word(out, to, b"`)` is expected: a name has at most 4 arguments"),
        What::Full => put_word(out, to, b"`.` is expected"),
        What::Blank => put_word(
            out,
            to,
            b"a blank, a new line or the end is expected after `.`",
        ),
    }
}

pub fn put_found(out: &mut [u8], to: usize, found: Found) -> usize
    ensures { Put out.old out.new to (found_words found) result }
{
    match found {
        Found::Tab => put_word(out, to, b"a tab: blanks and line ends are taken; "),
        Found::Large => put_word(out, to, b"a number from -32,768 to 32,767, then "),
        Found::Other => to,
    }
}
