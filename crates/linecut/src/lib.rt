// Lines cut out of bytes, and a goal out of its line.
#![tactic(auto)]

ghost use Rattle.std.specs.Prelude.{◌≡◌, false};
ghost use Rattle.std.proofs.Math.Seq.{slice};
ghost use Rattle.octets.specs.Octets.{Put};
ghost use Rattle.linecut.specs.Cut.{line_end, in_remark, closes, bracket_end};

use octets::put_byte;

// The first line feed between two places, or the second.
#[tactic(auto, using(crate::proofs::CutLaws::line_ends))]
pub fn line_end(buf: &[u8], from: usize, to: usize) -> usize
    ensures { result ≡ line_end buf.now from to }
{
    for i in from..to.min(buf.len()) {
        if buf[i] == 10 {
            return i;
        }
    }
    to
}

// The bytes between two places, moved to the front; how many they are.
pub fn move_front(buf: &mut [u8], from: usize, to: usize) -> usize
    ensures { Put buf.old buf.new 0 (slice from to buf.old) result }
{
    let mut n = 0;
    for i in from..to.min(buf.len()) {
        let byte = buf[i];
        n = put_byte(buf, n, byte);
    }
    n
}

// Whether a byte stands in a comment. No name and no number has a `%`, so that each begins one; a line feed ends it.
// Stays: the flag is a fact of the bytes before (in_remark, specs/Cut), and no choice of steps.
fn in_remark(remark: bool, byte: u8) -> bool
    ensures { result ≡ in_remark remark byte }
{
    if remark {
        return byte != 10;
    }
    byte == b'%'
}

// A closing bracket that is no comment's.
// Stays: the flag is a fact of the bytes before (closes, specs/Cut), and no choice of steps.
fn closes(remark: bool, byte: u8) -> bool
    ensures { result ≡ closes remark byte }
{
    if remark {
        return false;
    }
    byte == b')'
}

// Past the last bracket of a goal: what follows it is layout, and perhaps a full stop. 0 where there is no bracket.
pub fn goal_end(goal: &[u8]) -> usize
    ensures { result ≡ bracket_end false 0 0 goal.now }
{
    let mut end = 0;
    let mut remark = false;
    for (i, byte) in goal.iter().enumerate() {
        remark = in_remark(remark, *byte);
        if closes(remark, *byte) {
            end = i + 1;
        }
    }
    end
}
