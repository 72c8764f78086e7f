// Names as bytes.
ghost use Rattle.std.specs.Prelude.{◌≡◌};
ghost use Rattle.cell.specs.Same.{same};
ghost use Rattle.lex.specs.Names.{Names, NameSaid};

use super::{ends, kind};

// Whether two parts of a text are the same bytes.
pub fn same_bytes(a: &[u8], b: &[u8]) -> bool
    ensures { result ≡ same a.now b.now }
{
    a == b
}

// Whether a part of a text is a name in lower case, from its first byte to its last.
fn lower_name(word: &[u8]) -> bool
    ensures { Names word.now result }
{
    if word.is_empty() {
        return false;
    }
    kind::is_lower(word[0]) && ends::word_end(word, 1) == word.len()
}

// Whether so many bytes from a place on lie in the text and are a name in lower case.
pub fn is_name(text: &[u8], start: usize, bytes: usize) -> bool
    ensures { NameSaid text.now start bytes result }
{
    let n = text.len();
    if n < start {
        return false;
    }
    if n - start < bytes {
        return false;
    }
    let end = start + bytes;
    lower_name(&text[start..end])
}
