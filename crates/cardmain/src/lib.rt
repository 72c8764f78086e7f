// The program `card`: a shop's rules written as a card for a terminal, cards checked, and bad ones mended. What is written, what is read and what
// is said of it is decided and promised in the libraries. This crate finds the arguments; it is proved safe and ending.
#![tactic(auto)]

use console::NAME;
use slices::bytes::part;

// What the arguments ask for; or nothing that there is.
#[derive(Clone, Copy)]
pub enum Wish {
    Pack,
    Check,
    Mend,
    Help,
    Version,
    Nothing,
}

// How long the names of two files are: of what a card is made from and, where it is named, of the card's own.
#[derive(Clone, Copy)]
pub struct Names {
    pub from: usize,
    pub path: Option<usize>,
}

// By the first argument and by how many there are.
fn wish_of(word: &[u8], count: usize) -> Wish {
    match (word, count) {
        (b"pack", 2 | 3) => Wish::Pack,
        (b"check", 2) => Wish::Check,
        (b"mend", 2 | 3) => Wish::Mend,
        (b"--help" | b"-h", 1) => Wish::Help,
        (b"--version", 1) => Wish::Version,
        _ => Wish::Nothing,
    }
}

// The program's arguments: `pack RULES [FILE]`, `check FILE`, `mend BAD [FILE]`, `--help` or `--version`.
pub fn answer(rt: HostRuntime) {
    answer_call(rt, 1, console::arg_count(rt));
}

// A call by some of them: from a first one up to an end.
pub fn answer_call(rt: HostRuntime, first: usize, end: usize) {
    let count = end.saturating_sub(first);
    let mut word = [0u8; NAME];
    let n = console::word(rt, first, &mut word);
    let file = next(first);
    let card = if count == 3 { Some(next(file)) } else { None };
    match wish_of(&word[..n], count) {
        Wish::Pack => with_files(rt, file, card, b"cannot read RULES", cardwork::pack),
        Wish::Check => check(rt, file),
        Wish::Mend => with_files(rt, file, card, b"cannot read BAD", cardwork::mend),
        Wish::Help => cardhelp::print(rt),
        Wish::Version => cardhelp::version(rt),
        Wish::Nothing => cardhelp::refuse(rt),
    }
}

// The argument after one.
fn next(i: usize) -> usize {
    i.saturating_add(1)
}

// The file that an argument names. One that is too long for a name names none.
fn check(rt: HostRuntime, file: usize) {
    let mut path = [0u8; NAME];
    match console::arg(rt, file, &mut path) {
        Ok(n) => cardwork::check(rt, &path[..n]),
        Err(why) => console::fail(rt, b"cannot read FILE", why),
    }
}

// Work on what a card is made from, which an argument names, and on the card's file, where another argument names it.
fn with_files<Work: Fn(HostRuntime, &[u8], Option<&[u8]>)>(
    rt: HostRuntime,
    file: usize,
    card: Option<usize>,
    unread: &[u8],
    work: Work,
)
    requires { Work.IsAlwaysCallable work }
{
    let mut from = [0u8; NAME];
    let mut path = [0u8; NAME];
    if let Some(names) = names_in(rt, file, card, &mut from, &mut path, unread) {
        let from = part(&from, 0, names.from);
        match names.path {
            Some(m) => work(rt, from, Some(part(&path, 0, m))),
            None => work(rt, from, None),
        }
    }
}

// The names, or nothing where one of them cannot be, which is said.
fn names_in(
    rt: HostRuntime,
    file: usize,
    card: Option<usize>,
    from: &mut [u8],
    path: &mut [u8],
    unread: &[u8],
) -> Option<Names> {
    let n = argument(rt, file, from, unread)?;
    let Some(card) = card else {
        return Some(Names {
            from: n,
            path: None,
        });
    };
    let m = argument(rt, card, path, b"cannot write FILE")?;
    if part(from, 0, n) == part(path, 0, m) {
        // What the card is made from is not written over.
        cardhelp::refuse(rt);
        return None;
    }
    Some(Names {
        from: n,
        path: Some(m),
    })
}

// An argument at the front of a lent buffer: how many bytes, or why it cannot be is said.
fn argument(rt: HostRuntime, i: usize, buf: &mut [u8], failed: &[u8]) -> Option<usize> {
    match console::arg(rt, i, buf) {
        Ok(n) => Some(n),
        Err(why) => {
            console::fail(rt, failed, why);
            None
        }
    }
}
