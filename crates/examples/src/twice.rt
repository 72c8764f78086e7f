// 02, W-209: rows that use a variable twice, what their least plans cost and what they are run on.
use showing::{ask, costs, say};

// Names by their letters: f1 has one argument, g2 two.
const A: u32 = 0x40000001;

const B: u32 = 0x40000002;

const C: u32 = 0x40000003;

const F1: u32 = 0x40010006;

const G2: u32 = 0x40020007;

// One row, and goals below its costs: by 01's measure, and by the work with the figures 0 and 3.
fn alone(rt: HostRuntime) {
    let same = [2, 1, 0, 0];
    say(rt, b"(v0,v0) ");
    costs(rt, &same);
    say(rt, b"  (a,b) ");
    ask(rt, &same, &[A, B]);
    say(rt, b"  (a,v0) ");
    ask(rt, &same, &[A, 0]);
    say(rt, b"  (v0,f1(v0)) ");
    ask(rt, &same, &[0, F1, 0]);
    let three = [3, 1, 0, 0, 0];
    say(rt, b"(v0,v0,v0) ");
    costs(rt, &three);
    say(rt, b"  (a,v0,b) ");
    ask(rt, &three, &[A, 0, B]);
    let inside = [2, 1, 0, F1, 0];
    say(rt, b"(v0,f1(v0)) ");
    costs(rt, &inside);
    say(rt, b"  (v0,v0) ");
    ask(rt, &inside, &[0, 0]);
    let both = [3, 1, 0, 1, G2, 0, 1];
    say(rt, b"(v0,v1,g2(v0,v1)) ");
    costs(rt, &both);
    say(rt, b"  (v0,f1(v0),v1) ");
    ask(rt, &both, &[0, F1, 0, 1]);
    let chain = [4, 1, F1, 0, 0, F1, 1, 1];
    say(rt, b"(f1(v0),v0,f1(v1),v1) ");
    costs(rt, &chain);
    say(rt, b"  (v0,v1,v0,v1) ");
    ask(rt, &chain, &[0, 1, 0, 1]);
}

// And beside others.
fn beside(rt: HostRuntime) {
    let equal = [2, 2, 0, 0, 0, 0];
    say(rt, b"(v0,v0) (v0,v0) ");
    costs(rt, &equal);
    say(rt, b"  (v0,v1) ");
    ask(rt, &equal, &[0, 1]);
    let other = [2, 2, 0, 0, 0, 1];
    say(rt, b"(v0,v0) (v0,v1) ");
    costs(rt, &other);
    say(rt, b"  (a,b) ");
    ask(rt, &other, &[A, B]);
    let after = [2, 2, A, 0, 0, 0];
    say(rt, b"(a,v0) (v0,v0) ");
    costs(rt, &after);
    say(rt, b"  (v0,v0) ");
    ask(rt, &after, &[0, 0]);
    let shared = [3, 2, A, 0, 0, A, B, 0];
    say(rt, b"(a,v0,v0) (a,b,v0) ");
    costs(rt, &shared);
    say(rt, b"  (a,b,c) ");
    ask(rt, &shared, &[A, B, C]);
    let deep = [2, 2, F1, 0, 0, F1, A, A];
    say(rt, b"(f1(v0),v0) (f1(a),a) ");
    costs(rt, &deep);
    say(rt, b"  (f1(v0),v0) ");
    ask(rt, &deep, &[F1, 0, 0]);
    let apart = [3, 2, A, 0, 0, B, 0, 0];
    say(rt, b"(a,v0,v0) (b,v0,v0) ");
    costs(rt, &apart);
    say(rt, b"  (b,a,v0) ");
    ask(rt, &apart, &[B, A, 0]);
}

pub fn show(rt: HostRuntime) {
    alone(rt);
    beside(rt);
}
