// ask: "A goal is a term of the facts' predicate in W-201's grammar (final `.` allowed, not wanted)": a goal's text is read as one fact of
// the table's predicate and width, its names numbered on from the table's.
#![tactic(auto)]

mod names;

ghost use Rattle.std.specs.Prelude.{◌≡◌, ◌+◌, ◌≤◌, length};
ghost use Rattle.refusal.specs.Refusal.{refused, turned};
ghost use Rattle.refusal.specs.declared.Reason.{Reason};
ghost use Rattle.refusal.specs.declared.Input.{Input};
ghost use Rattle.goaltext.specs.Asked.{PredicateIs, goal_text_told, GoalAsked};
ghost use Rattle.goaltext.specs.code.Steps.{NameIs, EndsAre, SizeIs, OursIs, FactAsked, TextAsked, StoppedAsked};
ghost use Rattle.limits.specs.Limits.{most_goal_bytes, most_names, most_text_bytes};

use lex::fact::Head;
use limits::{GOAL_BYTES, NAMES, ROW_CELLS, TABLE_CELLS, TEXT_BYTES};
use prolog::FactsMade;
use refusal::{Input, Reason, Refusal};
use scan::Counted;
use slices::Span;
use termtext::Predicate;

// Where the name of a text's first fact stands.
fn first_name(text: &[u8]) -> Span
    ensures { NameIs text.now result }
{
    match lex::fact::next_fact(text, 0, true) {
        Head::Open(start, end) => Span { start, end },
        Head::End => Span { start: 0, end: 0 },
        Head::Stop(_) => Span { start: 0, end: 0 },
    }
}

// The predicate of a text's facts: the first one's name and number of arguments. A text that is turned away has none.
pub fn predicate_of(text: &[u8]) -> Predicate
    ensures { PredicateIs text.now result }
{
    let s = first_name(text);
    match scan::scan_text(text) {
        Ok(c) => Predicate {
            start: s.start,
            end: s.end,
            width: c.width,
        },
        Err(_) => Predicate {
            start: 0,
            end: 0,
            width: 0,
        },
    }
}

// A goal's text that is read: how many cells it has, and how many names that the table has not.
#[derive(Clone, Copy)]
pub struct GoalTextSize {
    pub cells: usize,
    pub names: usize,
}

fn refuse(reason: Reason, input: Input, place: usize) -> Result<GoalTextSize, Refusal>
    ensures { goal_text_told result ≡ turned (refused reason input place) }
{
    Err(Refusal {
        reason,
        input,
        place,
    })
}

// Where no text goes on so; none where it is a text, of whatever facts.
fn text_stop(text: &[u8]) -> Option<usize>
    ensures { length text.now ≤ most_text_bytes → EndsAre text.now result }
{
    match scan::scan_text(text) {
        Ok(_) => None,
        Err(f) => {
            let reason = f.reason;
            let place = f.place;
            if refusal::number_of(reason) == 18 {
                return Some(place);
            }
            None
        }
    }
}

// How many bytes of a goal with a full stop after it are read: all, or those before the full stop's line; or TEXT's place.
fn whole_size(text: &[u8], n: usize) -> Result<usize, usize>
    requires { (n + 2 ≡ length text.now) × (length text.now ≤ most_text_bytes) }
    ensures { SizeIs text.now n result }
{
    match text_stop(&text[..n]) {
        None => Ok(n),
        Some(k) => {
            if k < n {
                return Err(k);
            }
            match text_stop(text) {
                None => Ok(n + 2),
                Some(_) => Err(n),
            }
        }
    }
}

// One fact, of the table's predicate and width: so many facts are counted, and the first one's name is `s`.
fn is_ours(text: &[u8], p: Predicate, whole: &[u8], s: Span, c: Counted) -> bool
    ensures { OursIs text.now p whole.now s c result }
{
    if c.facts != 1 {
        return false;
    }
    if p.width != c.width {
        return false;
    }
    lex::name::same_bytes(
        slices::bytes::part(whole, s.start, s.end),
        slices::bytes::part(text, p.start, p.end),
    )
}

// A fact that is the goal: 01's tests, which see no name's number, and then its cells by the table's names, and its new names. `row` has
// its cells by its own names, which `list` says.
fn put_goal(
    text: &[u8],
    names: &[u32],
    width: usize,
    whole: &[u8],
    row: &[u32],
    list: &[u32],
    cells: &mut [u32; ROW_CELLS],
    new: &mut [u32; ROW_CELLS],
) -> Result<GoalTextSize, Refusal>
    requires { (length names.now ≤ most_names) × (length list.now ≤ length row.now) }
    ensures { FactAsked text.now names.now width whole.now row.now list.now
        cells.old cells.new new.old new.new result }
{
    let size = table::goal_for(width, row)?;
    let mut numbers = [0u32; ROW_CELLS];
    let k = names::number_names(text, names, whole, list, &mut numbers, new);
    names::put_cells(row, &numbers, cells);
    Ok(GoalTextSize {
        cells: size.cells,
        names: k,
    })
}

// A goal's text, whole: OTHER, or the goal.
fn read_whole(
    text: &[u8],
    names: &[u32],
    p: Predicate,
    whole: &[u8],
    cells: &mut [u32; ROW_CELLS],
    new: &mut [u32; ROW_CELLS],
) -> Result<GoalTextSize, Refusal>
    requires { (length names.now ≤ most_names) × (length whole.now ≤ most_text_bytes) }
    ensures { TextAsked text.now names.now p whole.now
        cells.old cells.new new.old new.new result }
{
    let s = first_name(whole);
    let mut made = [0u32; TABLE_CELLS];
    let mut list = [0u32; NAMES];
    match prolog::make_facts(whole, &mut made, &mut list) {
        Ok(FactsMade::Made(c, size)) => {
            if is_ours(text, p, whole, s, c) {
                let k = size.cells;
                let n = size.names;
                return put_goal(
                    text,
                    names,
                    p.width,
                    whole,
                    &made[2..k],
                    &list[..n],
                    cells,
                    new,
                );
            }
            refuse(Reason::Other, Input::Text, s.start)
        }
        Ok(FactsMade::Long(c)) => {
            if is_ours(text, p, whole, s, c) {
                return refuse(Reason::Length, Input::Goal, 0);
            }
            refuse(Reason::Other, Input::Text, s.start)
        }
        Err(_) => refuse(Reason::Other, Input::Text, s.start),
    }
}

// A goal with a full stop after it, of which so many bytes are the goal's.
fn read_stopped(
    text: &[u8],
    names: &[u32],
    p: Predicate,
    stopped: &[u8],
    cells: &mut [u32; ROW_CELLS],
    new: &mut [u32; ROW_CELLS],
) -> Result<GoalTextSize, Refusal>
    requires { (length names.now ≤ most_names) × (2 ≤ length stopped.now) × (length stopped.now ≤ most_text_bytes) }
    ensures { StoppedAsked text.now names.now p stopped.now
        cells.old cells.new new.old new.new result }
{
    match whole_size(stopped, stopped.len() - 2) {
        Ok(m) => read_whole(text, names, p, &stopped[..m], cells, new),
        Err(k) => refuse(Reason::Text, Input::Text, k),
    }
}

// A goal's text by way of a lent room, which has two bytes more at least: a full stop is put after it.
fn read_in(
    text: &[u8],
    names: &[u32],
    p: Predicate,
    goal: &[u8],
    stopped: &mut [u8],
    cells: &mut [u32; ROW_CELLS],
    new: &mut [u32; ROW_CELLS],
) -> Result<GoalTextSize, Refusal>
    requires { (length names.now ≤ most_names) × (length goal.now ≤ most_goal_bytes) × (length goal.now + 2 ≤ length stopped.old) }
    ensures { GoalAsked text.now names.now p goal.now
        cells.old cells.new new.old new.new result }
{
    let n = octets::put_word(stopped, 0, goal);
    let k = octets::put_word(stopped, n, b"\n.");
    read_stopped(text, names, p, &stopped[..k], cells, new)
}

// A goal's cells at the front of `cells`, by the names of a text of facts and by its predicate; and at the front of `new` the names that
// those have not, as a list of places in the goal. Few goals have over 1,022 bytes, and no other waits until a room for 65,535 is cleared.
pub fn read_goal(
    text: &[u8],
    names: &[u32],
    p: Predicate,
    goal: &[u8],
    cells: &mut [u32; ROW_CELLS],
    new: &mut [u32; ROW_CELLS],
) -> Result<GoalTextSize, Refusal>
    ensures { GoalAsked text.now names.now p goal.now
        cells.old cells.new new.old new.new result }
{
    if NAMES < names.len() {
        return refuse(Reason::Length, Input::Table, 0);
    }
    if GOAL_BYTES < goal.len() {
        return refuse(Reason::Bytes, Input::Text, 0);
    }
    if goal.len() <= 1022 {
        let mut short = [0u8; 1024];
        return read_in(text, names, p, goal, &mut short, cells, new);
    }
    let mut long = [0u8; TEXT_BYTES];
    read_in(text, names, p, goal, &mut long, cells, new)
}
