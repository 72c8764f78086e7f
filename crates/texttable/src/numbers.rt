// The numbers of a row's variables: a variable's place among those of its row.
ghost use Rattle.std.specs.Prelude.{◌≡◌, ◌≤◌, ◌<◌, length};
ghost use Rattle.std.proofs.Math.Seq.{slice};
ghost use Rattle.grammar.specs.Meaning.{place};
ghost use Rattle.texttable.specs.code.Numbers.{is_fresh, RowVars, VariableIs};
ghost use Rattle.limits.specs.Limits.{most_text_bytes};

use super::tree;

// The variables of a row so far: those that have a name, and all.
#[derive(Clone, Copy)]
pub struct Row {
    pub named: usize,
    pub all: usize,
}

// A variable's number, and the row's variables with it.
#[derive(Drop)]
pub struct Numbered {
    pub number: usize,
    pub row: Row,
}

// `_` is another variable each time.
fn is_fresh(text: &[u8], start: usize, end: usize) -> bool
    requires { (start < end) × (end ≤ length text.now) }
    ensures { result ≡ is_fresh (slice start end text.now) }
{
    end - start == 1 && text[start] == b'_'
}

// One variable more. Those with a name are listed in `words`, found by `ways`, and each has the number that it was given when it was first
// met.
// Stays: the three rooms of a row's variables are lent one by one, as to `make_on`.
pub fn number_variable(
    text: &[u8],
    words: &mut [u32],
    ways: &mut [u16],
    given: &mut [u16],
    row: Row,
    start: usize,
    end: usize,
) -> Numbered
    requires { (start < end) × (end ≤ length text.now) × (length text.now ≤ most_text_bytes) × (row.all < length words.old)
        × (length words.old < 65535) × RowVars text.now words.old ways.old given.old row }
    ensures { (v : RowVars text.now words.old ways.old given.old row)
        → VariableIs text.now v.places (place start end) words.new ways.new given.new result }
{
    let named = row.named;
    let all = row.all;
    if is_fresh(text, start, end) {
        return Numbered {
            number: all,
            row: Row {
                named,
                all: all + 1,
            },
        };
    }
    let j = tree::meet(text, words, ways, named, start, end);
    if j < named {
        return Numbered {
            number: usize::from(given[j]),
            row,
        };
    }
    given[named] = all as u16;
    Numbered {
        number: all,
        row: Row {
            named: named + 1,
            all: all + 1,
        },
    }
}
