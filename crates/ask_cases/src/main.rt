// What the program `ask` says. First calls of it, one after another, each with what it prints: their arguments are this program's, and the last of
// them reads standard input. Then what calls say to standard error, and what no call here reaches.
#![tactic(auto)]

mod said;

fn main(rt: HostRuntime) {
    calls::make_each(rt, b"ask", askmain::answer_call);
    said::show(rt);
}
