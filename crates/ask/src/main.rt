// The program `ask`: which rules of a file of Prolog facts fit a goal, and what they answer.
#![tactic(auto)]

fn main(rt: HostRuntime) {
    askmain::answer(rt);
}
