// What the program `card` says. First calls of it, one after another, each with what it prints: their arguments are this program's. Then what is said
// of cards that are spoiled.
#![tactic(auto)]

mod spoiled;

fn main(rt: HostRuntime) {
    calls::make_each(rt, b"card", cardmain::answer_call);
    spoiled::show_all(rt);
}
