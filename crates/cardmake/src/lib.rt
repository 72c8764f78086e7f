// A card made of a file of facts: its table and the least plan, as bytes.
#![tactic(auto)]

use refusal::Refusal;
use shop::{KEPT, Shop};

// The largest card: 66 blocks.
pub const CARD: usize = 33792;

// How many bytes it has; or why there is none is said. One byte more is read than a text may have, so that too long a file is seen to be one.
pub fn make(rt: HostRuntime, path: &[u8], card: &mut [u8], out: &mut [u8]) -> Option<usize> {
    let mut text = [0u8; 65536];
    match reading::read_path(rt, path, &mut text) {
        Ok(n) => made_of(rt, path, slices::bytes::part(&text, 0, n), card, out),
        Err(why) => {
            reading::cannot_read(rt, path, why, out);
            None
        }
    }
}

fn made_of(
    rt: HostRuntime,
    path: &[u8],
    text: &[u8],
    card: &mut [u8],
    out: &mut [u8],
) -> Option<usize> {
    match write(text, card) {
        Ok(n) => Some(n),
        Err(f) => {
            let n = refusals::put_facts_refusal(out, path, text, f);
            page::complain(rt, out, n);
            None
        }
    }
}

fn write(text: &[u8], card: &mut [u8]) -> Result<usize, Refusal> {
    let mut room = [0u32; 65536];
    let mut kept = [0u32; KEPT];
    let shop = shop::load(text, &mut room, &mut kept)?;
    write_kept(&shop, card)
}

// A least plan of a table that was read is not refused, and a room of 33,792 bytes is enough for every card.
fn write_kept(shop: &Shop<'_>, card: &mut [u8]) -> Result<usize, Refusal> {
    let written = filewriting::write_file(shop.table, shop.plan, card)?;
    Ok(written.bytes)
}
