// What the program `card` does with the files that its arguments name: cards checked, made of rules, and made of what can be had of bad ones.
#![tactic(auto)]

use octets::put_word;
use slices::bytes::part;

// What a card needs of the stack is the most of these three, each with its own arrays, and not their sum.

// One byte more is read than is looked at, 2,048 blocks, so that a longer file is seen to be one.
#[inline(never)]
pub fn check(rt: HostRuntime, path: &[u8]) {
    let mut file = [0u8; 1048577];
    let mut out = [0u8; 8192];
    check_file(rt, path, &mut file, &mut out);
}

fn check_file(rt: HostRuntime, path: &[u8], file: &mut [u8], out: &mut [u8]) {
    match reading::read_path(rt, path, file) {
        Ok(n) => say(rt, path, part(file, 0, n), out),
        Err(why) => reading::cannot_read(rt, path, why, out),
    }
}

fn say(rt: HostRuntime, path: &[u8], file: &[u8], out: &mut [u8]) {
    let a = put_word(out, 0, path);
    if 1048576 < file.len() {
        let b = cardwords::put_longer(out, a);
        page::complain(rt, out, b);
        return;
    }
    match cardcheck::put_checked(out, a, file) {
        Ok(n) => {
            page::print(rt, out, n);
        }
        Err(n) => page::complain(rt, out, n),
    }
}

// A card of rules, to a file where one is named, and otherwise to standard output.
#[inline(never)]
pub fn pack(rt: HostRuntime, rules: &[u8], path: Option<&[u8]>) {
    let mut card = [0u8; 33792];
    let mut out = [0u8; 8192];
    if let Some(n) = cardmake::make(rt, rules, &mut card, &mut out) {
        match path {
            Some(path) => keep(rt, path, part(&card, 0, n), &mut out),
            None => {
                page::print(rt, &card, n);
            }
        }
    }
}

// What can be had of a bad card, reported, and a card of that to a file where one is named. A report of 2,047 bad blocks has 11,234 bytes at most.
#[inline(never)]
pub fn mend(rt: HostRuntime, bad: &[u8], path: Option<&[u8]>) {
    let mut card = [0u8; 33792];
    let mut out = [0u8; 12288];
    let made = cardmend::mend(rt, bad, &mut card, &mut out);
    if let (Some(n), Some(path)) = (made, path) {
        keep(rt, path, part(&card, 0, n), &mut out);
    }
}

// To its file; then what `check` says of it.
fn keep(rt: HostRuntime, path: &[u8], card: &[u8], out: &mut [u8]) {
    if cardfile::write_card(rt, path, card, out) {
        say(rt, path, card, out);
    }
}
