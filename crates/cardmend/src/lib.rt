// What can be had of a bad card: what is reported of it, and a card made of that.
#![tactic(auto)]

ghost use Rattle.std.specs.Prelude.{◌+◌, ◌≤◌, length};
ghost use Rattle.limits.specs.Limits.{most_rows};

use limits::{PLAN_CELLS, TABLE_CELLS};
use octets::put_word;
use refusal::Refusal;
use salvaging::Report;
use slices::cells::part;

// Where the report ends, and how many bytes the card has.
#[derive(Clone, Copy)]
pub struct Mended {
    pub report: usize,
    pub card: usize,
}

// A file read, what is had of it reported, and a card made of that: how many bytes, or why there is none is said. One byte more is read than is
// looked at, 2,048 blocks, so that a longer file is seen to be one.
pub fn mend(rt: HostRuntime, path: &[u8], card: &mut [u8], out: &mut [u8]) -> Option<usize> {
    let mut file = [0u8; 1048577];
    mend_file(rt, path, &mut file, card, out)
}

fn mend_file(
    rt: HostRuntime,
    path: &[u8],
    file: &mut [u8],
    card: &mut [u8],
    out: &mut [u8],
) -> Option<usize> {
    match reading::read_path(rt, path, file) {
        Ok(n) => say(rt, path, slices::bytes::part(file, 0, n), card, out),
        Err(why) => {
            reading::cannot_read(rt, path, why, out);
            None
        }
    }
}

fn say(
    rt: HostRuntime,
    path: &[u8],
    file: &[u8],
    card: &mut [u8],
    out: &mut [u8],
) -> Option<usize> {
    if 1048576 < file.len() {
        let a = put_word(out, 0, path);
        let b = cardwords::put_longer(out, a);
        page::complain(rt, out, b);
        return None;
    }
    match put_mended(out, path, file, card) {
        Ok(mended) => {
            page::print(rt, out, mended.report);
            Some(mended.card)
        }
        Err(n) => {
            page::complain(rt, out, n);
            None
        }
    }
}

// The report; or why nothing can be had, and as an error where that ends.
pub fn put_mended(
    out: &mut [u8],
    path: &[u8],
    file: &[u8],
    card: &mut [u8],
) -> Result<Mended, usize> {
    match save(out, file, card) {
        Ok(mended) => Ok(mended),
        Err(f) => {
            let a = put_word(out, 0, path);
            Err(cardwords::put_refused(out, a, f))
        }
    }
}

// 2,050 and 6,082 cells are enough for every table and plan, 2,048 numbers for the blocks of a file that is looked at. What was saved is not refused
// when it is written, and a room of 33,792 bytes is enough for every card.
fn save(out: &mut [u8], file: &[u8], card: &mut [u8]) -> Result<Mended, Refusal> {
    let mut table = [0u32; TABLE_CELLS];
    let mut plan = [0u32; PLAN_CELLS];
    let mut bad = [0usize; 2048];
    let r = salvage::salvage(file, &mut table, &mut plan, &mut bad)?;
    let t = part(&table, 0, r.table);
    let p = part(&plan, 0, r.plan);
    let written = filewriting::write_file(t, p, card)?;
    Ok(Mended {
        report: put_report(out, r, &bad),
        card: written.bytes,
    })
}

fn put_report(out: &mut [u8], r: Report, bad: &[usize]) -> usize
    requires { (r.kept + r.dropped ≤ most_rows) × (r.bad ≤ length bad.now) }
{
    let n = r.bad;
    mendwords::put_report(out, 0, r.kept, r.kept + r.dropped, r.plan_kept, &bad[..n])
}
