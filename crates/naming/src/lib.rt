// A text's list of names, looked at: "NAMES when a listed place holds no lower-case name, two hold the same, or the table has a name number
// not listed".
#![tactic(auto)]

ghost use Rattle.std.specs.Prelude.{length, drop, ◌<◌, [], ◌∷◌};
ghost use Rattle.clauses.specs.Handed.{Listed};
ghost use Rattle.naming.specs.Says.{Says};
ghost use Rattle.naming.specs.code.Names.{Entry, Entries, Known, AllKnown, FreshTo, ApartTo};

use lex::name::{is_name, same_bytes};

// Whether an entry lies in the text and is a name.
fn entry(text: &[u8], name: u32) -> bool
    ensures { Says (Entry text.now name) result }
{
    let start = (name % 65536) as usize;
    let bytes = (name / 65536) as usize;
    is_name(text, start, bytes)
}

// Whether every entry is.
fn each_name(text: &[u8], names: &[u32]) -> bool
    ensures { Says (Entries text.now names.now) result }
{
    names.iter().all(|name| entry(text, *name))
}

// Whether a cell's number is listed, if it is a name.
fn known(c: u32, count: usize) -> bool
    ensures { Says (Known count c) result }
{
    if cell::kind(c) != 1 {
        return true;
    }
    let n = cell::number(c) as usize;
    n < count
}

// Whether every cell's is, from one on.
fn all_known(table: &[u32], from: usize, count: usize) -> bool
    ensures { Says (AllKnown count (drop from table.now)) result }
{
    table.iter().skip(from).all(|c| known(*c, count))
}

// Whether an entry's word stands at none of those before it.
fn fresh(text: &[u8], names: &[u32], k: usize) -> bool
    requires { k < length names.now }
    ensures { Says (FreshTo text.now names.now k k) result }
{
    for i in 0..k {
        if same_bytes(
            nameword::word(text, names[i]),
            nameword::word(text, names[k]),
        ) {
            return false;
        }
    }
    true
}

// Whether no two entries have one word.
fn no_two(text: &[u8], names: &[u32]) -> bool
    ensures { Says (ApartTo text.now names.now (length names.now)) result }
{
    for k in 0..names.len() {
        if !fresh(text, names, k) {
            return false;
        }
    }
    true
}

// Whether the names of a table's cells are listed, whatever they are: of an accepted table they are its rows' (proofs: listed-rows).
pub fn listed(table: &[u32], text: &[u8], names: &[u32]) -> bool
    ensures { Says (Listed text.now names.now (drop 2 table.now ∷ [])) result }
{
    if !each_name(text, names) {
        return false;
    }
    if !no_two(text, names) {
        return false;
    }
    all_known(table, 2, names.len())
}
