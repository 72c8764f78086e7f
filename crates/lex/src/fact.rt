// Where a fact begins and where it ends.
ghost use Rattle.std.specs.Prelude.{◌<◌, length, drop};
ghost use Rattle.grammar.specs.Reader.{Solid};
ghost use Rattle.lex.specs.Heads.{Heads, Closes};
ghost use Rattle.lex.specs.code.Ends.{HeadAt};

use super::{Stop, ends, kind};

// What follows the start of a text or a full stop, layout passed over: nothing more; a fact's name, its start and the place of its bracket;
// or no text goes on so.
#[derive(Clone, Copy)]
pub enum Head {
    End,
    Open(usize, usize),
    Stop(usize),
}

// A fact's name and its bracket.
fn head_at(text: &[u8], at: usize) -> Head
    requires { (at < length text.now) × Solid (drop at text.now) }
    ensures { HeadAt text.now at result }
{
    if !kind::is_lower(text[at]) {
        return Head::Stop(at);
    }
    let e = ends::word_end(text, at + 1);
    if kind::stands(text, e, b'(') {
        return Head::Open(at, e);
    }
    Head::Stop(e)
}

// The next fact, from the start of the text on (`first`) or from just after a full stop, which layout follows (ISO/IEC 13211-1, 6.4.8).
pub fn next_fact(text: &[u8], at: usize, first: bool) -> Head
    ensures { Heads text.now at first result }
{
    let p = ends::gap_end(text, at);
    if p < text.len() {
        if first || at < p {
            return head_at(text, p);
        }
        return Head::Stop(p);
    }
    if first {
        return Head::Stop(p);
    }
    Head::End
}

// After a fact's last bracket: the place after its full stop.
pub fn fact_end(text: &[u8], at: usize) -> Result<usize, Stop>
    ensures { Closes text.now at result }
{
    let p = ends::gap_end(text, at);
    if kind::stands(text, p, b'.') {
        return Ok(p + 1);
    }
    Err(Stop { at: p })
}
