// Steps over terms: W-205's worked examples, and a nest that is deeper than calls can go. What is printed is compared with the file stdout.
#![tactic(auto)]

// Names by their letters, with as many arguments as the digit says.
const A: u32 = 0x40000001;

const B: u32 = 0x40000002;

const C: u32 = 0x40000003;

const F1: u32 = 0x40010006;

const F2: u32 = 0x40020006;

// Where the term that begins at a place ends.
fn step(rt: HostRuntime, text: &[u8], cells: &[u32], from: usize) {
    console::say(rt, text);
    match term::term_end(cells, from) {
        Some(e) => {
            console::say(rt, b": ends at ");
            console::say_number(rt, e);
            console::say(rt, b"\n");
        }
        None => console::say(rt, b": the cells run out\n"),
    }
}

fn main(rt: HostRuntime) {
    let cells = [F2, A, F1, B, C];
    step(rt, b"f2 a f1 b c from 0", &cells, 0);
    step(rt, b"f2 a f1 b c from 1", &cells, 1);
    step(rt, b"f2 a f1 b c from 2", &cells, 2);
    step(rt, b"f2 a f1 b c from 5", &cells, 5);
    step(rt, b"f2 a from 0", &cells[..2], 0);
    let mut nest = [F1; 400001];
    step(rt, b"400001 times f1", &nest, 0);
    nest[400000] = A;
    step(rt, b"400000 times f1, then a", &nest, 0);
}
