// Files of blocks (02, W-211): what their writing and their reading answer. specs/ says what a file is and how it is read, proofs/ that the
// two undo each other.
#![tactic(auto)]

ghost use Rattle.std.specs.Prelude.{◌≡◌};

use refusal::{Input, Reason, Refusal};

// How many bytes and blocks are written.
#[derive(Clone, Copy)]
pub struct Written {
    pub bytes: usize,
    pub blocks: usize,
}

// How many cells of a table and of a plan are read.
#[derive(Clone, Copy)]
pub struct Contents {
    pub table: usize,
    pub plan: usize,
}

// A refusal in place of whatever was asked for.
pub fn turn<T>(reason: Reason, input: Input, place: usize) -> Result<T, Refusal>
    ensures { result ≡ Err (record { reason = reason; input = input; place = place }) }
{
    Err(Refusal {
        reason,
        input,
        place,
    })
}
