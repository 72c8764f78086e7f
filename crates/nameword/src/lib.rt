// The word that a number of W-201's list of names says. What does not lie in the text is left out.
#![tactic(auto)]

ghost use Rattle.std.specs.Prelude.{◌≡◌};
ghost use Rattle.termtext.specs.Saying.{word_in};

use slices::bytes::part;

pub fn word(text: &[u8], name: u32) -> &[u8]
    ensures { result.now ≡ word_in text.now name }
{
    let start = (name % 65536) as usize;
    let bytes = (name / 65536) as usize;
    part(text, start, start + bytes)
}
