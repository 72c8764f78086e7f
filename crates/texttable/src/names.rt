// How many different names a text has, for a text with more of them than can be listed at once. They are counted in batches: the names from
// a place on are listed until the list is full; those that are met again after that are struck out; what is left of the list is counted,
// and the next batch begins where this one ended. So each name is counted in the batch in which it stands last.
ghost use Rattle.std.specs.Prelude.{◌≡◌, ◌≤◌, ◌<◌, length};
ghost use Rattle.texttable.specs.code.Tree.{Tree};
ghost use Rattle.texttable.specs.code.Names.{NextNameIs, FilledTo, Strikes, zeros, Batched, CountsNames};
ghost use Rattle.limits.specs.Limits.{most_text_bytes};

use super::tree;
use symbols::{Ahead, Spot};
use tree::Slot;

// A name: its start, the place after it, and where the text goes on.
#[derive(Clone, Copy)]
pub struct Name {
    pub start: usize,
    pub end: usize,
    pub next: Spot,
}

// The next name from a place on.
fn next_name(text: &[u8], from: Spot) -> Option<Name>
    ensures { NextNameIs text.now from result }
{
    let mut at = from;
    loop {
        match symbols::next_item(text, at) {
            Ahead::Name(start, end, next) => {
                return Some(Name { start, end, next });
            }
            Ahead::Variable(_, _, to) => {
                at = to;
            }
            Ahead::Number(_, to) => {
                at = to;
            }
            Ahead::Row(to) => {
                at = to;
            }
            Ahead::End => {
                return None;
            }
        }
    }
}

// So many names are listed, up to a place; whether there may be more.
#[derive(Drop)]
pub struct Filled {
    pub count: usize,
    pub to: Spot,
    pub more: bool,
}

// The names from a place on, into an empty list.
fn fill(text: &[u8], from: Spot, list: &mut [u32], links: &mut [u16]) -> Filled
    requires { (length text.now ≤ most_text_bytes) × (length list.old < most_text_bytes) × Tree text.now list.old links.old 0 }
    ensures { FilledTo text.now from list.new links.new result }
{
    let mut count = 0;
    let mut to = from;
    // Stays: the list is longer only where a name is new, so that no range has these numbers.
    while count < list.len() {
        let Some(Name { start, end, next }) = next_name(text, to) else {
            return Filled {
                count,
                to,
                more: false,
            };
        };
        if tree::meet(text, list, links, count, start, end) == count {
            count += 1;
        }
        to = next;
    }
    Filled {
        count,
        to,
        more: true,
    }
}

// The listed names that are met from a place on are marked.
fn strike(text: &[u8], from: Spot, list: &[u32], links: &[u16], count: usize, marks: &mut [u8])
    requires { (count ≤ length marks.old) × Tree text.now list.now links.now count }
    ensures { Strikes text.now from list.now links.now count marks.old
        marks.new }
{
    let mut at = from;
    while let Some(Name { start, end, next }) = next_name(text, at) {
        if let Slot::Listed(j) = tree::find(text, list, links, count, &text[start..end]) {
            marks[j] = 1;
        }
        at = next;
    }
}

// How many of the first marks are 0.
fn unmarked(marks: &[u8], count: usize) -> usize
    requires { count ≤ length marks.now }
    ensures { (result ≡ zeros count marks.now) × (result ≤ count) }
{
    marks[..count].iter().filter(|mark| **mark == 0).count()
}

// The names of a batch that are met no more after it, where it ends, and whether there may be more.
#[derive(Drop)]
pub struct Batch {
    pub names: usize,
    pub to: Spot,
    pub more: bool,
}

fn count_batch(text: &[u8], from: Spot) -> Batch
    requires { length text.now ≤ most_text_bytes }
    ensures { Batched text.now from result }
{
    let mut list = [0u32; 3500];
    let mut links = [0u16; 7001];
    let filled = fill(text, from, &mut list, &mut links);
    let mut marks = [0u8; 3500];
    strike(text, filled.to, &list, &links, filled.count, &mut marks);
    let names = unmarked(&marks, filled.count);
    Batch {
        names,
        to: filled.to,
        more: filled.more,
    }
}

// How many different names an accepted text has.
pub fn count_names(text: &[u8]) -> usize
    requires { length text.now ≤ most_text_bytes }
    ensures { CountsNames text.now result }
{
    let mut total = 0;
    let mut at = symbols::begin(text);
    loop {
        let batch = count_batch(text, at);
        total += batch.names;
        if !batch.more {
            return total;
        }
        at = batch.to;
    }
}
