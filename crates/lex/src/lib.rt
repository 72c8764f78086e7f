// What stands at a place of a text: the next symbol or mark of a fact, where a fact begins and ends, whether bytes are a name.
// Every place of every text may be asked.
#![tactic(auto)]

mod ends;
pub mod fact;
mod kind;
pub mod name;
pub mod turn;

ghost use Rattle.std.specs.Prelude.{◌≡◌};
ghost use Rattle.refusal.specs.Refusal.{refused, told};
ghost use Rattle.refusal.specs.declared.Reason.TheVariants as reason;
ghost use Rattle.refusal.specs.declared.Input.TheVariants as input;

use refusal::{Input, Reason, Refusal};

// No text goes on as this one does from this place on.
#[derive(Clone, Copy)]
pub struct Stop {
    pub at: usize,
}

// It is refused as TEXT, there.
impl From<Stop> for Refusal {
    ghost from_gives = { λ s f. told f ≡ refused reason.Text input.Text s.at };

    fn from(stop: Stop) -> Refusal {
        Refusal {
            reason: Reason::Text,
            input: Input::Text,
            place: stop.at,
        }
    }
}
