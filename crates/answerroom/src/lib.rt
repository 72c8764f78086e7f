// An answer's text, put for a caller that lends a room of any size: it is measured first, so that nothing is written where it has no room.
#![tactic(auto)]

ghost use Rattle.std.specs.Prelude.{◌≡◌, ◌^◌, ◌≤◌, ◌<◌, length};
ghost use Rattle.refusal.specs.Refusal.{refused, turned};
ghost use Rattle.refusal.specs.Coded.{Small};
ghost use Rattle.refusal.specs.declared.Reason.{Reason};
ghost use Rattle.refusal.specs.declared.Input.{Input};
ghost use Rattle.termtext.specs.Saying.{predicate_in, said_in};
ghost use Rattle.answerroom.specs.Room.{answer_told, AnswerInto};
ghost use Rattle.limits.specs.Limits.{most_reply_cells, most_text_bytes};

use answertext::measure::terms_bytes;
use limits::REPLY_CELLS;
use refusal::{Input, Reason, Refusal};
use termtext::Predicate;

// So many cells are said, in so many bytes.
#[derive(Clone, Copy)]
pub struct AnswerTextSize {
    pub cells: usize,
    pub bytes: usize,
}

fn refuse(reason: Reason, input: Input, place: usize) -> Result<AnswerTextSize, Refusal>
    ensures { answer_told result ≡ turned (refused reason input place) }
{
    Err(Refusal {
        reason,
        input,
        place,
    })
}

// The bytes of an answer: the predicate's, a bracket, and those of the terms.
fn answer_bytes(
    text: &[u8],
    names: &[u32],
    goal: &[u8],
    new: &[u32],
    p: Predicate,
    cells: &[u32],
) -> usize
    requires { (length cells.now ≤ most_reply_cells) × (length (predicate_in text.now p) ≤ most_text_bytes) }
    ensures { (result ≡ length (said_in text.now names.now goal.now new.now p cells.now))
        × (result < 2 ^ 32) }
{
    let called = slices::bytes::part(text, p.start, p.end).len();
    called + 1 + terms_bytes(text, names, goal, new, p.width, cells)
}

// A reply's cells as a term of the facts' predicate, at the front of the room: how many cells, and how many bytes.
pub fn put_answer(
    text: &[u8],
    names: &[u32],
    goal: &[u8],
    new: &[u32],
    cells: &[u32],
    room: &mut [u8],
) -> Result<AnswerTextSize, Refusal>
    ensures answer_into { AnswerInto text.now names.now goal.now new.now cells.now
        room.old room.new result }
    ensures small { Small (answer_told result) }
{
    if REPLY_CELLS < cells.len() {
        return refuse(Reason::Big, Input::Goal, 0);
    }
    let p = goaltext::predicate_of(text);
    let need = answer_bytes(text, names, goal, new, p, cells);
    if room.len() < need {
        return refuse(Reason::Room, Input::Lent, need);
    }
    answertext::put_answer(room, text, names, goal, new, p, cells);
    Ok(AnswerTextSize {
        cells: cells.len(),
        bytes: need,
    })
}
