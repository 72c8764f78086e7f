// Words told apart by their bytes: each is listed where it first stands, as `bytes * 2^16 + start`, and found again by a tree over bits
// that are mixed of the words' bytes, so that words made to be alike part soon. Slot 0 leads to the first word; 1 + 2 * j + b leads on from
// word j for words whose next bit is b. A slot holds a word's number plus 1, or 0.
ghost use Rattle.std.specs.Prelude.{◌≡◌, ◌+◌, ◌*◌, ◌/◌, ◌%◌, ◌^◌, ◌≤◌, ◌<◌, length};
ghost use Rattle.texttable.specs.code.Tree.{start_of, mix_of, MixKept, word_listed, WordFits, Tree, Finds, WordMet, Cleared};
ghost use Rattle.cell.specs.Same.{same};
ghost use Rattle.limits.specs.Limits.{most_text_bytes};

// A word's number where it is listed; otherwise the slot at which it would be found.
// Stays: both are answers with a number of their own, and neither is a failure; the names tell them apart.
#[derive(Clone, Copy)]
pub enum Slot {
    Listed(usize),
    Free(usize),
}

// Where the bytes begin that are mixed: first only the last two, since names that are numbered part there; later all.
fn mix_start(turn: usize, bytes: usize) -> usize
    ensures { (result ≡ start_of turn bytes) × (result ≤ bytes) }
{
    if 0 < turn {
        return 0;
    }
    bytes.saturating_sub(2)
}

// The bytes of a word mixed into 16 bits, in another way at each turn.
fn mixed(word: &[u8], turn: usize) -> usize
    ensures { result ≡ mix_of word.now turn }
{
    let start = mix_start(turn, word.len());
    let mut mix = turn % 65536;
    for byte in &word[start..] {
        mix = (31 * mix + mix / 256 + usize::from(*byte)) % 65536;
    }
    mix
}

// The mix for the d-th bit; each serves for sixteen.
fn mix_at(word: &[u8], mix: usize, d: usize) -> usize
    requires { MixKept word.now mix d }
    ensures { result ≡ mix_of word.now (d / 16) }
{
    if d % 16 == 0 {
        mixed(word, d / 16)
    } else {
        mix
    }
}

// The d-th bit of a word whose mix this is.
fn bit(mix: usize, d: usize) -> usize
    ensures { (result ≡ mix / 2 ^ (d % 16) % 2) × (result ≤ 1) }
{
    let r = d % 16;
    (mix >> r) % 2
}

// Whether this is a word of the list.
fn is_word(text: &[u8], listed: u32, word: &[u8]) -> bool
    requires { WordFits text.now listed }
    ensures { result ≡ same word.now (word_listed text.now listed) }
{
    let start = (listed % 65536) as usize;
    let bytes = (listed / 65536) as usize;
    let end = start + bytes;
    lex::name::same_bytes(word, &text[start..end])
}

// The search: down the tree by the word's bits.
pub fn find(text: &[u8], list: &[u32], links: &[u16], count: usize, word: &[u8]) -> Slot
    requires { Tree text.now list.now links.now count }
    ensures { Finds text.now list.now links.now count word.now result }
{
    let mut slot = 0;
    let mut d = 0;
    let mut mix = 0;
    loop {
        let k = usize::from(links[slot]);
        if k == 0 {
            return Slot::Free(slot);
        }
        let j = k - 1;
        if is_word(text, list[j], word) {
            return Slot::Listed(j);
        }
        mix = mix_at(word, mix, d);
        slot = 1 + 2 * j + bit(mix, d);
        d += 1;
    }
}

// A word is met, from a place up to another: its number. One that is not listed is listed as the next, where there is room for it.
pub fn meet(
    text: &[u8],
    list: &mut [u32],
    links: &mut [u16],
    count: usize,
    start: usize,
    end: usize,
) -> usize
    requires { (start ≤ end) × (end ≤ length text.now) × (length text.now < 65536) × (count < length list.old) × (count < most_text_bytes)
        × Tree text.now list.old links.old count }
    ensures { WordMet text.now list.old links.old count start end list.new
        links.new result }
{
    match find(text, list, links, count, &text[start..end]) {
        Slot::Listed(j) => j,
        Slot::Free(slot) => {
            list[count] = ((end - start) as u32) * 65536 + (start as u32);
            links[slot] = (count + 1) as u16;
            count
        }
    }
}

// The tree of no words: every slot that so many words have used is free again.
pub fn clear(links: &mut [u16], count: usize)
    requires { 2 * count < length links.old }
    ensures { Cleared links.old links.new count }
{
    links[..2 * count + 1].fill(0);
}
