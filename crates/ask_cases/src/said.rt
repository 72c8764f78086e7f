// What the program ask says where texts of facts, goals, lists of columns and files of goals are refused: calls say it to standard error, which is
// not stored. And what it says of counts and columns that no call here reaches.
use askgoal::Ready;
use goallist::Full;
use limits::BRANCHES;
use message::Whose;
use refusal::Refusal;
use shop::{KEPT, Shop};

fn put(rt: HostRuntime, text: &[u8], whose: Whose, f: Refusal) {
    let mut out = [0u8; 256];
    let n = refusals::put_refusal(&mut out, 0, text, 0, whose, f);
    console::say(rt, slices::bytes::part(&out, 0, n));
}

// Why a text of facts is refused.
fn facts(rt: HostRuntime, text: &[u8]) {
    let mut room = [0u32; 65536];
    let mut kept = [0u32; KEPT];
    if let Err(f) = shop::load(text, &mut room, &mut kept) {
        put(rt, text, Whose::Facts, f);
    }
}

// Why a goal is refused, for some rules: by its text, or by an answer.
fn goal_of(rt: HostRuntime, rules: &[u8], text: &[u8]) {
    let mut room = [0u32; 65536];
    let mut kept = [0u32; KEPT];
    match shop::load(rules, &mut room, &mut kept) {
        Ok(shop) => asked(rt, shop, text, &mut room),
        Err(f) => put(rt, rules, Whose::Facts, f),
    }
}

fn asked(rt: HostRuntime, shop: Shop<'_>, text: &[u8], room: &mut [u32]) {
    let mut numbers = [0u64; BRANCHES];
    let ready = Ready::new(shop, &mut numbers);
    if let Err(f) = ready.find(text, room) {
        put(rt, text, Whose::Goal, f);
    }
}

fn goal(rt: HostRuntime, text: &[u8]) {
    goal_of(rt, b"p(a, b).", text);
}

// TEXT.
fn texts(rt: HostRuntime) {
    facts(rt, b"P(a).");
    facts(rt, b"p (a).");
    facts(rt, b"p(a b).");
    facts(rt, b"p(a).\np(b)\nq(c).");
    facts(rt, b"p(a, f(b,\n  40000)).");
    facts(rt, b"p(f(a, b, c, d, e)).");
    facts(rt, b"p(-a).");
    facts(rt, b"p(a).p(b).");
}

// TEXT at the end, inside a comment too; at a tab.
fn ends(rt: HostRuntime) {
    facts(rt, b"p(a) %c");
    facts(rt, b"%c");
    facts(rt, b"p(%c");
    facts(rt, b"p(a). q");
    facts(rt, b"p(f(1, 2, 3, 4");
    facts(rt, b"p(a,\tb).");
}

// TEXT at the end of as many bytes as a text may have.
fn longest(rt: HostRuntime) {
    let mut text = [b' '; 65535];
    text[0] = b'p';
    text[1] = b'(';
    facts(rt, &text);
}

// OTHER, WIDTH, LONG and SAME: the symbol, or where the rule begins.
fn tables(rt: HostRuntime) {
    facts(rt, b"p(a).\n  q(b).");
    facts(rt, b"\n p(a,a,a,a,a,a,a,a,a).");
    facts(
        rt,
        b"p(a).\np(f(f(f(f(f(f(f(f(f(f(f(f(f(f(f(f(f(f(f(f(f(f(f(f(f(f(f(f(f(f(f(f(a))))))))))))))))))))))))))))))))).",
    );
    facts(rt, b"p(1).\np(2).\n   p(1).");
}

fn goals(rt: HostRuntime) {
    goal(rt, b"p(a, b");
    goal(rt, b"p(a, b). p(a, b).");
    goal(rt, b"q(a, b)");
    goal(rt, b"p(a)");
    goal(
        rt,
        b"p(f(a,a,a,f(a,a,a,f(a,a,a,a))), f(a,a,a,f(a,a,a,f(a,a,a,f(a,a,a,f(a,a,a,a))))))",
    );
}

// BIG. The first goal's answer has 1,024 cells, and nothing is said.
fn big(rt: HostRuntime) {
    let rules = b"p(A, f(A, A, A, A), B, f(B, B, B, B), C, f(C, C, C, C), D, E).";
    goal_of(
        rt,
        rules,
        b"p(A, B, B, C, C, D, D, f(f(f(D, D, B, D), f(D, D), f(f(D, D))), f(f(D, f(D), A), C)))",
    );
    goal_of(
        rt,
        rules,
        b" p(A, B, B, C, C, D, D, f(f(D, D, f(D, C, D)), D, f(A, f(D, D, B, f(f(D, D, A)))), f(A)))",
    );
}

fn write(rt: HostRuntime, out: &[u8], n: usize) {
    console::say(rt, slices::bytes::part(out, 0, n));
}

// COLUMN: a list that `--known` has, of a file's rules.
fn column(rt: HostRuntime, list: &[u8], path: &[u8], rules: &[u8]) {
    let mut out = [0u8; 256];
    let n = known::put_column(&mut out, 0, list, path, shop::width_of(rules));
    write(rt, &out, n);
}

// What `--count` prints for a rule and for all goals, where so many fitted and were answered.
fn counted(rt: HostRuntime, n: usize) {
    let mut out = [0u8; 256];
    let width = tallywords::digits(n);
    let a = tallywords::put_fitted(&mut out, 0, width, n, 64, 65535);
    let b = tallywords::put_total(&mut out, a, width, n, b"goal answered", b"goals answered");
    write(rt, &out, b);
}

// A file of goals has no room for one.
fn full(rt: HostRuntime, line: usize, what: Full) {
    let mut out = [0u8; 256];
    let n = tunewords::put_full(&mut out, 0, b"jobs.pl", line, what);
    write(rt, &out, n);
}

// What `--tune` prints for columns and counts, before the plan.
fn tuned(
    rt: HostRuntime,
    columns: &[u32],
    goals: usize,
    refused: usize,
    tried: usize,
    plain: usize,
) {
    let mut out = [0u8; 256];
    let a = tunewords::put_look(&mut out, 0, columns, b"shop.pl");
    let b = tunewords::put_counted(&mut out, a, goals, refused, tried, plain);
    write(rt, &out, b);
}

pub fn show(rt: HostRuntime) {
    texts(rt);
    ends(rt);
    longest(rt);
    tables(rt);
    goals(rt);
    big(rt);
    // BYTES
    facts(rt, &[b' '; 65536]);
    goal(rt, &[b' '; 65534]);
    column(rt, b"5", b"shop.pl", b"rule(9, red, ring, soft).");
    column(rt, b"1,2,1", b"one.pl", b"p(a).");
    counted(rt, 0);
    counted(rt, 1);
    counted(rt, usize::MAX);
    full(rt, 100001, Full::Goals);
    full(rt, 25001, Full::Cells);
    tuned(rt, &[], 0, 0, 0, 0);
    tuned(rt, &[1], 1, 2, 1, 1);
    tuned(rt, &[0, 1, 2, 3, 4, 5, 7], 2, 1, 10, 20);
}
