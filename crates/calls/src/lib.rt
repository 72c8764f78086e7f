// Calls of a program whose output is stored, all in one run: their arguments stand one after another, and a `;` after those of each.
#![tactic(auto)]

use console::NAME;

// Each call by itself: a line with it, and then what it prints.
pub fn make_each<F: Fn(HostRuntime, usize, usize)>(rt: HostRuntime, name: &[u8], answer: F)
    requires { F.IsAlwaysCallable answer }
{
    let count = console::arg_count(rt);
    let mut first = 1;
    for i in 1..count {
        if ends(rt, i) {
            print(rt, name, first, i);
            answer(rt, first, i);
            first = i + 1;
        }
    }
}

// Whether an argument ends a call.
fn ends(rt: HostRuntime, i: usize) -> bool {
    let mut word = [0u8; NAME];
    let n = console::word(rt, i, &mut word);
    matches!(&word[..n], b";")
}

// A line with a call: the program's name, and the arguments from a first one up to an end.
fn print(rt: HostRuntime, name: &[u8], first: usize, end: usize) {
    console::say(rt, b"$ ");
    console::say(rt, name);
    for i in first..end {
        print_word(rt, i);
    }
    console::say(rt, b"\n");
}

fn print_word(rt: HostRuntime, i: usize) {
    let mut word = [0u8; NAME];
    let n = console::word(rt, i, &mut word);
    console::say(rt, b" ");
    console::say(rt, &word[..n]);
}
