// Every example of 01, marked or not, as 02's W-208 and W-209 leave them, and some of W-204, on the functions themselves. What is printed is
// compared with the file stdout.
#![tactic(auto)]

mod twice;

use showing::{ask, build, build_work, check, read, say};

// 01's letters: names without arguments, f1 with one. The letter's place in the alphabet is its number.
const A: u32 = 0x40000001;

const B: u32 = 0x40000002;

const C: u32 = 0x40000003;

const D: u32 = 0x40000004;

const F1: u32 = 0x40010006;

const G: u32 = 0x40000007;

const G2: u32 = 0x40020007;

const X: u32 = 0x40000018;

const Y: u32 = 0x40000019;

const Z: u32 = 0x4000001a;
// The whole numbers 1, 2, 3 and 9.
const ONE: u32 = 0x80000001;

const TWO: u32 = 0x80000002;

const THREE: u32 = 0x80000003;

const NINE: u32 = 0x80000009;

fn marked(rt: HostRuntime) {
    say(rt, b"P1 ");
    build(rt, &[3, 4, A, B, C, A, B, D, A, C, C, B, A, C]);
    let p2 = [2, 3, A, B, B, C, A, D];
    say(rt, b"P2 ");
    build(rt, &p2);
    say(rt, b"P2 (a,v0) ");
    ask(rt, &p2, &[A, 0]);
    say(rt, b"P2 (v0,v1) ");
    ask(rt, &p2, &[0, 1]);
    let p3 = [
        3, 6, G, A, ONE, G, A, TWO, G, A, THREE, G, ONE, B, G, TWO, B, G, THREE, B,
    ];
    say(rt, b"P3 ");
    build(rt, &p3);
    say(rt, b"P3 0 2 ");
    check(rt, &p3, &[0, 2]);
    say(rt, b"P4 ");
    build(rt, &[1, 1, 0]);
    say(rt, b"P5 ");
    read(rt, &[1, 2, A, A]);
    say(rt, b"P6 ");
    build(rt, &[1, 2, 0, 0]);
    say(rt, b"P7 (v0,v0) ");
    ask(rt, &[2, 2, A, B, A, A], &[0, 0]);
    say(rt, b"P8 ");
    build(rt, &[1, 3, F1, A, F1, B, G]);
    say(rt, b"P8 (g) ");
    ask(rt, &[1, 3, F1, A, F1, B, G], &[G]);
    say(rt, b"P9 ");
    build(rt, &[2, 1, 0, 0]);
    say(rt, b"P9 ");
    read(rt, &[1, 1, 1]);
    say(rt, b"P10 ");
    read(rt, &[2, 1, A]);
}

fn unmarked(rt: HostRuntime) {
    let mut nested = [F1; 35];
    nested[0] = 1;
    nested[1] = 1;
    nested[33] = A;
    say(rt, b"31 times f1 then a ");
    read(rt, &nested[..34]);
    nested[33] = F1;
    nested[34] = A;
    say(rt, b"32 times f1 then a ");
    read(rt, &nested);
    say(rt, b"5 arguments ");
    read(rt, &[1, 1, 0x40050001]);
    let p2 = [2, 3, A, B, B, C, A, D];
    say(rt, b"P2 with a shared between rows 0 and 2 ");
    check(rt, &p2, &[0, 2, A, 0, 2, B, 1, D, 1, B, 0, 1, C, 1]);
    say(rt, b"P6 with agreeing variables ");
    check(rt, &[1, 2, 0, 0], &[0, 1, 0, 2]);
    let six = [
        4, 6, A, X, X, X, A, X, X, X, A, Y, Y, Y, B, Y, Y, Y, B, Z, Z, Z, B, Z, Z, Z,
    ];
    say(rt, b"six rows, two of them doubled ");
    read(rt, &six);
    let four = [4, 4, A, X, X, X, A, Y, Y, Y, B, Y, Y, Y, B, Z, Z, Z];
    say(rt, b"fewest runs first ");
    build(rt, &four);
}

// 02, W-204: plans that change with the figure, or with the weight of a name's arguments.
fn work(rt: HostRuntime) {
    say(rt, b"(v0) ");
    build_work(rt, 15, &[1, 1, 0]);
    say(rt, b"(v0) (v0) ");
    build_work(rt, 15, &[1, 2, 0, 0]);
    say(rt, b"(f1(a),9) ");
    build_work(rt, 3, &[2, 1, F1, A, NINE]);
    let p1 = [3, 4, A, B, C, A, B, D, A, C, C, B, A, C];
    say(rt, b"P1 ");
    build_work(rt, 0, &p1);
    say(rt, b"P1 ");
    build_work(rt, 1, &p1);
    say(rt, b"P1 ");
    build_work(rt, 2, &p1);
    say(rt, b"P1 ");
    build_work(rt, 15, &p1);
    say(rt, b"P1 ");
    build_work(rt, 16, &p1);
    let blank = [2, 3, B, A, 0, B, 0, B];
    say(rt, b"blank ");
    build_work(rt, 0, &blank);
    say(rt, b"blank ");
    build_work(rt, 1, &blank);
    let names = [2, 3, A, A, A, G2, B, 0, 0, G2, A, 1];
    say(rt, b"names ");
    build(rt, &names);
    say(rt, b"names ");
    build_work(rt, 0, &names);
    say(rt, b"no cells ");
    build_work(rt, 16, &[]);
}

fn main(rt: HostRuntime) {
    marked(rt);
    unmarked(rt);
    work(rt);
    twice::show(rt);
}
