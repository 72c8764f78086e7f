// A part of a lent text.
ghost use Rattle.std.specs.Prelude.{◌≡◌};
ghost use Rattle.std.proofs.Math.Seq.{slice};

use super::inside;

pub fn part(text: &[u8], start: usize, end: usize) -> &[u8]
    ensures { result.now ≡ slice start end text.now }
{
    let s = inside(text.len(), start, end);
    let a = s.start;
    let e = s.end;
    &text[a..e]
}
