// Where layout and words end.
ghost use Rattle.std.specs.Prelude.{◌≤◌, length};
ghost use Rattle.lex.specs.code.Ends.{LineTo, GapTo, WordTo};

use super::kind;

// Where the rest of a comment's line ends: after its line feed, or with the text.
fn line_end(text: &[u8], at: usize) -> usize
    requires { at ≤ length text.now }
    ensures { LineTo text.now at result }
{
    for i in at..text.len() {
        if text[i] == b'\n' {
            return i + 1;
        }
    }
    text.len()
}

// Where the layout that begins at a place ends: blanks and comments.
pub fn gap_end(text: &[u8], at: usize) -> usize
    ensures { GapTo text.now at result }
{
    let mut i = at;
    // Stays: a comment jumps to the end of its line, so that no range has these places.
    while i < text.len() {
        let byte = text[i];
        if byte == b'%' {
            i = line_end(text, i + 1);
            continue;
        }
        if !kind::is_blank(byte) {
            return i;
        }
        i += 1;
    }
    i
}

// Where the letters, digits and underscores from a place on end.
pub fn word_end(text: &[u8], at: usize) -> usize
    ensures { WordTo text.now at result }
{
    for i in at..text.len() {
        if !kind::is_word(text[i]) {
            return i;
        }
    }
    at.max(text.len())
}
