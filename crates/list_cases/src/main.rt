// Further cases of the programs planlist and textlist, stored with their output.
#![tactic(auto)]

mod plans;
mod texts;

fn main(rt: HostRuntime) {
    plans::show_all(rt);
    texts::show_all(rt);
}
