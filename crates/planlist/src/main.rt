// The listing program (01, "On both sides"): a table as little-endian cells on standard input, its listing on standard output.
#![tactic(auto)]

// Stays: each of the two programs names its own rooms and its own list, and is no more than that.
fn main(rt: HostRuntime) {
    // one cell more than a table may have, so that too long an input is seen to be one
    let mut bytes = [0u8; 8204];
    let n = console::read_input(rt, &mut bytes);
    let mut out = [0u8; 43035];
    let k = listing::list_table(&bytes[..n], &mut out);
    console::say(rt, &out[..k]);
}
