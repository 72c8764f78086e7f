// The program `ask`: a shop's rules and its goals in Prolog text, answered in Prolog text. What is read and what is answered is decided and
// promised in the libraries. This crate finds the file and hands on what is asked of it; it is proved safe and ending.
#![tactic(auto)]

use askwork::Facts;
use console::NAME;
use page::{Printer, ROOM};
use shop::KEPT;
use slices::{bytes, cells};
use wishes::{Asked, Call};

// The program's arguments: `[--known LIST] [--count] FILE GOAL ..`, `[--known LIST] --plan FILE`, the same with `--dot` or `--prolog`,
// `--tune JOBS FILE`, `--help` or `--version`.
pub fn answer(rt: HostRuntime) {
    answer_call(rt, 1, console::arg_count(rt));
}

// A call by some of them: from a first one up to an end.
pub fn answer_call(rt: HostRuntime, first: usize, end: usize) {
    match wishes::read(rt, first, end) {
        Some(Asked::Help) => helptext::print(rt),
        Some(Asked::Version) => helptext::version(rt),
        Some(Asked::Of(call)) => find_columns(rt, call),
        None => helptext::refuse(rt),
    }
}

// The columns that are known, of which a list that is an argument has at most 2,048.
fn find_columns(rt: HostRuntime, call: Call) {
    let mut columns = [0u32; 2048];
    match known::columns_of(rt, call.known, &mut columns) {
        Some(n) => find_file(rt, call, cells::part(&columns, 0, n)),
        None => helptext::refuse_list(rt),
    }
}

// The file that an argument names. One that is too long for a name names none.
fn find_file(rt: HostRuntime, call: Call, columns: &[u32]) {
    let mut path = [0u8; NAME];
    match console::arg(rt, call.file, &mut path) {
        Ok(n) => lend(rt, &path[..n], call, columns),
        Err(why) => console::fail(rt, b"cannot read FILE", why),
    }
}

// The rooms, lent once: for answers and, before them, for the table; for what is kept of the file; for what is printed.
fn lend(rt: HostRuntime, path: &[u8], call: Call, columns: &[u32]) {
    let mut room = [0u32; 65536];
    let mut kept = [0u32; KEPT];
    let mut out = [0u8; ROOM];
    open(rt, path, call, columns, &mut room, &mut kept, &mut out);
}

// One byte more is read than a text may have, so that too long a file is seen to be one.
// Stays: what `lend` lends, so that its rooms and their proof stand in a function of their own.
fn open(
    rt: HostRuntime,
    path: &[u8],
    call: Call,
    columns: &[u32],
    room: &mut [u32],
    kept: &mut [u32],
    out: &mut [u8],
) {
    let mut file = [0u8; 65536];
    let mut printer = Printer::new(rt, out);
    match reading::read_path(rt, path, &mut file) {
        Ok(n) => {
            let text = bytes::part(&file, 0, n);
            askwork::answer(
                Facts { path, text },
                call,
                columns,
                room,
                kept,
                &mut printer,
            );
        }
        Err(why) => reading::cannot_read(rt, path, why, printer.room),
    }
}
