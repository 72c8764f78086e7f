// Why a card is refused, put into a lent room as the functions of `octets` put their texts: the refusal's name and number, and what is expected. A
// card is refused for its blocks, its table or its plan.
#![tactic(auto)]

ghost use Rattle.std.specs.Prelude.{◌≡◌, MatchOption};
ghost use Rattle.octets.specs.Octets.{Put};
ghost use Rattle.refusal.specs.Refusal.{reason_number};
ghost use Rattle.message.specs.Message.{by_number};
ghost use Rattle.cardreasons.specs.Reasons.{card_reason};

use octets::put_word;
use refusal::Reason;

// A reason for which no card is refused is told by its number alone.
pub fn put_reason(out: &mut [u8], to: usize, reason: Reason) -> usize
    ensures { Put out.old out.new to (card_reason reason) result }
{
    match words_of(reason) {
        Some(words) => put_word(out, to, words),
        None => message::put_number(out, to, refusal::number_of(reason)),
    }
}

#[tactic(auto, unfolding(crate::specs::Reasons::card_reason, message::specs::Words::ascii))]
fn words_of(reason: Reason) -> Option<&'static [u8]>
    ensures { MatchOption result (card_reason reason ≡ by_number (reason_number reason)) (λ words. card_reason reason ≡ words.now) }
{
    match reason {
        Reason::Length => Some(b"LENGTH 1: 2 to 2,050 cells are expected"),
        Reason::Width => Some(b"WIDTH 2: 1 to 8 columns are expected"),
        Reason::Count => Some(b"COUNT 3: 1 to 64 rules are expected"),
        Reason::Long => Some(b"LONG 4: at most 32 cells are expected in a rule"),
        Reason::Short => Some(b"SHORT 5: the rest of the rules is expected"),
        Reason::Cell => Some(
            b"CELL 6: a name with at most 4 arguments, a number or a variable is expected",
        ),
        Reason::Fresh => Some(
            b"FRESH 7: a variable that the rule has before is expected, or the next one",
        ),
        Reason::Extra => Some(b"EXTRA 9: nothing more is expected"),
        Reason::Size => Some(b"SIZE 10: at most 6,082 cells are expected"),
        Reason::Ends => Some(b"ENDS 11: the rest of the plan is expected"),
        Reason::Open => Some(
            b"OPEN 12: the number of an open place is expected, the first being 0",
        ),
        Reason::Edges => Some(
            b"EDGES 13: a branch is expected for each run of rules that agree at the place",
        ),
        Reason::Label => Some(b"LABEL 14: what the branch's rules have at the place is expected"),
        Reason::Rows => Some(b"ROWS 15: the number of rules that are left is expected"),
        Reason::Same => Some(
            b"SAME 24: a rule that does not stand above is expected, or one with a variable",
        ),
        Reason::Blocks => Some(b"BLOCKS 27: whole blocks of 512 bytes are expected, one or more"),
        Reason::Damage => Some(
            b"DAMAGE 28: its own number and the check words of its cells are expected",
        ),
        Reason::Sizes => Some(
            b"SIZES 29: as many blocks are expected as its table and its plan need",
        ),
        Reason::Padding => Some(b"PADDING 30: zeros are expected after the plan"),
        Reason::Head => Some(
            b"HEAD 31: a sound block 0 with 1 to 8 columns and 1 to 64 rules is expected",
        ),
        Reason::None => Some(b"NONE 32: a whole rule is expected before the first bad block"),
        Reason::Room
        | Reason::Bytes
        | Reason::Text
        | Reason::Other
        | Reason::Figure
        | Reason::Full
        | Reason::Last
        | Reason::Index
        | Reason::Big
        | Reason::Names
        | Reason::Column
        | Reason::Early => None,
    }
}
