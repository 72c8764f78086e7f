// The program `card`: the rules of a file of Prolog facts written as a card for a terminal, cards checked, and bad ones mended.
#![tactic(auto)]

fn main(rt: HostRuntime) {
    cardmain::answer(rt);
}
