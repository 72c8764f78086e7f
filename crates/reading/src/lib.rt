// Reading, in which an error is no end.
#![tactic(auto)]

ghost use Rattle.std.specs.Prelude.{◌≡◌, ◌+◌, min};

use console::{Reason, Stream};
use octets::put_word;

// Reads some bytes behind those that there are; how many, none at the end.
pub fn read_behind(from: &mut Stream, buf: &mut [u8], to: usize) -> Result<usize, Reason> {
    if buf.len() < to {
        return Ok(0);
    }
    console::read(from, &mut buf[to..])
}

// So many bytes further, and no further than the end.
pub fn ahead(to: usize, n: usize, end: usize) -> usize
    ensures { result ≡ min end (to + n) }
{
    to.saturating_add(n).min(end)
}

// A file from its start on, as far as there is room; how many bytes.
fn read_file(from: &mut Stream, buf: &mut [u8]) -> Result<usize, Reason> {
    let mut to = 0;
    while to < buf.len() {
        match read_behind(from, buf, to)? {
            0 => break,
            n => to = ahead(to, n, buf.len()),
        }
    }
    Ok(to)
}

// The file of that name.
pub fn read_path(rt: HostRuntime, path: &[u8], buf: &mut [u8]) -> Result<usize, Reason> {
    let mut file = console::open(rt, path)?;
    read_file(&mut file, buf)
}

// Says to standard error what could not be done to which file, with the system's reason.
pub fn cannot(rt: HostRuntime, deed: &[u8], path: &[u8], why: Reason, out: &mut [u8]) {
    let a = put_word(out, 0, deed);
    let b = put_word(out, a, path);
    console::fail(rt, slices::bytes::part(out, 0, b), why);
}

pub fn cannot_read(rt: HostRuntime, path: &[u8], why: Reason, out: &mut [u8]) {
    cannot(rt, b"cannot read ", path, why, out);
}
