// The text program (02, W-201): a text on standard input; its table's rows and its names on standard output.
#![tactic(auto)]

// Stays: each of the two programs names its own rooms and its own list, and is no more than that.
fn main(rt: HostRuntime) {
    // one byte more than a text may have, so that too long an input is seen to be one
    let mut text = [0u8; 65536];
    let n = console::read_input(rt, &mut text);
    let mut out = [0u8; 43030];
    let k = textlines::list_text(&text[..n], &mut out);
    console::say(rt, &out[..k]);
}
