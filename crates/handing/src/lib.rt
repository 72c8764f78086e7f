// A plan handed back as Prolog clauses: the entry.
#![tactic(auto)]

mod measure;
mod text;

ghost use Rattle.std.specs.Prelude.{◌≡◌, length};
ghost use Rattle.clauses.specs.Handed.{text_for, Handed};
ghost use Rattle.clauses.specs.code.Size.{program_bytes};
ghost use Rattle.handing.specs.code.Lines.{blanks, ProgramWritten};
ghost use Rattle.handing.specs.code.Sizes.{Gives};

use clauses::ProgramSize;
use refusal::{Input, Reason, Refusal};
use text::put_program;

// Stays: what the clause says is of the clauses that ProgramWritten holds (w.clauses), which a type's invariant would not name.
// A program's text, put at the front of the room; or, where the room is too small, how many bytes are needed.
fn put(program: &[u32], text: &[u8], names: &[u32], room: &mut [u8]) -> Result<ProgramSize, Refusal>
    requires { ProgramWritten program.now }
    ensures { (w : ProgramWritten program.now)
        → length (text_for text.now names.now w.clauses) ≡ program_bytes (blanks names.now) w.clauses
        → Gives (length w.clauses) (text_for text.now names.now w.clauses) room.old room.new result }
{
    let size = measure::measure(names, program);
    if room.len() < size.bytes {
        return Err(Refusal {
            reason: Reason::Room,
            input: Input::Lent,
            place: size.bytes,
        });
    }
    put_program(room, text, names, program);
    Ok(size)
}

// The clauses of any plan for a table, any cells at all for both, put as text into a lent room: how many clauses and how many bytes. Nothing
// is written where anything is refused.
pub fn hand_back(
    table: &[u32],
    plan: &[u32],
    text: &[u8],
    names: &[u32],
    room: &mut [u8],
) -> Result<ProgramSize, Refusal>
    ensures { Handed table.now plan.now text.now names.now room.old room.new result }
{
    let mut program = [0u32; 4608];
    let n = unfolding::unfold(table, plan, &mut program)?;
    if !naming::listed(table, text, names) {
        return Err(Refusal {
            reason: Reason::Names,
            input: Input::Names,
            place: 0,
        });
    }
    put(&program[..n], text, names, room)
}
