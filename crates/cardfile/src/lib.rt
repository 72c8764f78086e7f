// A card written to a file: under another name first, and renamed when it is whole, so that a write that fails leaves the old card.
#![tactic(auto)]

use console::Reason;
use octets::put_word;
use std::fs::File;

// The other name is longer by four bytes. Whether the card is there; what failed is said.
pub fn write_card(rt: HostRuntime, path: &[u8], card: &[u8], out: &mut [u8]) -> bool {
    let mut name = [0u8; 4128];
    let a = put_word(&mut name, 0, path);
    let b = put_word(&mut name, a, b".new");
    write_beside(rt, slices::bytes::part(&name, 0, b), path, card, out).is_some()
}

// A file that has the other name already is not touched, and one that was made is not left where the rest fails.
fn write_beside(
    rt: HostRuntime,
    name: &[u8],
    path: &[u8],
    card: &[u8],
    out: &mut [u8],
) -> Option<()> {
    or_say(rt, may_replace(rt, path), b"cannot replace ", path, out)?;
    let file = or_say(rt, console::create(rt, name), b"cannot make ", name, out)?;
    let kept = write_into(rt, file, name, path, card, out);
    if kept.is_none() {
        or_say(rt, console::remove(rt, name), b"cannot remove ", name, out);
    }
    kept
}

// Nothing, or a file. A folder cannot be opened so, and what is no file, as a device, cannot be given a length, not even its own. Renaming would
// put a file in its place.
fn may_replace(rt: HostRuntime, path: &[u8]) -> Result<(), Reason> {
    match console::open_update(rt, path) {
        Ok(mut file) => console::keep_length(&mut file),
        Err(why) if console::is_no_file(why) => Ok(()),
        Err(why) => Err(why),
    }
}

// All of the card, as far as its device, and the file closed, which is then renamed. The first of these that fails is said, with its own reason;
// std does not say whether the closing fails.
fn write_into(
    rt: HostRuntime,
    file: File,
    name: &[u8],
    path: &[u8],
    card: &[u8],
    out: &mut [u8],
) -> Option<()> {
    or_say(rt, console::fill(file, card), b"cannot write ", name, out)?;
    or_say(
        rt,
        console::rename(rt, name, path),
        b"cannot replace ",
        path,
        out,
    )
}

// What was done; or it is said what could not be done to which file, and why.
fn or_say<T>(
    rt: HostRuntime,
    done: Result<T, Reason>,
    deed: &[u8],
    path: &[u8],
    out: &mut [u8],
) -> Option<T> {
    match done {
        Ok(value) => Some(value),
        Err(why) => {
            reading::cannot(rt, deed, path, why, out);
            None
        }
    }
}
