//! What the programs ask of the system, over std: their arguments, files by name, standard input, standard output and standard error, and the
//! system's reason where a call fails. All of it is bytes, which go through as they are.
#![tactic(auto)]

ghost use Rattle.std.specs.Prelude.{◌≡◌, ◌≤◌, length, IfOk};

use std::env::{Env, FillError};
use std::fmt::Write as _;
use std::fs::{File, OpenOptions};
use std::io::{ErrorKind, Print, Read, Seek, SeekFrom, Stdin, Write};
use std::str::Utf8Error;
use std::{fmt, fs, io, str};

// How long the name of a file may be, and one byte more.
pub const NAME: usize = 4096;

// The system's numbers of some errors: a file that is not there, a call whose error has no number, a value that no call takes, a name that is too
// long, and a name that is no text.
const ENOENT: i32 = 2;

const EIO: i32 = 5;

const EINVAL: i32 = 22;

const ENAMETOOLONG: i32 = 36;

const EILSEQ: i32 = 84;

// Why a call failed: the system's number of the error.
#[derive(Clone, Copy)]
pub struct Reason {
    code: i32,
}

impl From<io::Error> for Reason {
    fn from(error: io::Error) -> Self {
        match error.raw_os_error() {
            Some(code) => Reason { code },
            None => error.kind().into(),
        }
    }
}

// An error of std's own, which has no number: a value that it does not hand on to the system, or a write that takes nothing.
impl From<ErrorKind> for Reason {
    fn from(kind: ErrorKind) -> Self {
        match kind {
            ErrorKind::InvalidInput => Reason { code: EINVAL },
            _ => Reason { code: EIO },
        }
    }
}

// An argument that is not there, or is longer than the buffer that is lent for it.
impl From<FillError> for Reason {
    fn from(error: FillError) -> Self {
        match error {
            FillError::TooLong => Reason { code: ENAMETOOLONG },
            FillError::NotPresent => Reason { code: EINVAL },
        }
    }
}

// A file's name that is not UTF-8, which std does not take.
impl From<Utf8Error> for Reason {
    fn from(_error: Utf8Error) -> Self {
        Reason { code: EILSEQ }
    }
}

// How many arguments the program was started with, its own name among them.
pub fn arg_count(rt: HostRuntime) -> usize {
    let mut none = [0u8; 1];
    for i in 0..usize::MAX {
        if let Err(FillError::NotPresent) = rt.arg(i, &mut none) {
            return i;
        }
    }
    usize::MAX
}

// An argument, at the front of a lent buffer: how many bytes. One that is longer than the buffer fills it.
pub fn arg(rt: HostRuntime, i: usize, buf: &mut [u8]) -> Result<usize, Reason>
    ensures { IfOk result (λ n. n ≤ length buf.new) }
{
    Ok(rt.arg(i, buf)?)
}

// Likewise; no bytes where it is missing or longer than the buffer.
pub fn word(rt: HostRuntime, i: usize, buf: &mut [u8]) -> usize
    ensures { result ≤ length buf.new }
{
    arg(rt, i, buf).unwrap_or(0)
}

// Likewise; of one that is longer than the buffer as much as fits.
pub fn front(rt: HostRuntime, i: usize, buf: &mut [u8]) -> usize
    ensures { result ≤ length buf.new }
{
    match rt.arg(i, buf) {
        Ok(n) => n,
        Err(FillError::TooLong) => buf.len(),
        Err(FillError::NotPresent) => 0,
    }
}

fn open_by(rt: HostRuntime, how: &OpenOptions, path: &[u8]) -> Result<File, Reason> {
    let text = str::from_utf8(path)?;
    Ok(how.open(&rt, text)?)
}

// What bytes are read from: standard input, or an open file, which is closed when it is let go.
// Stays: no Option and no Result, since both variants are what bytes are read from.
#[derive(Drop)]
pub enum Stream {
    Input(Stdin),
    File(File),
}

pub fn input(rt: HostRuntime) -> Stream {
    Stream::Input(rt.stdin())
}

// A file to be read.
pub fn open(rt: HostRuntime, path: &[u8]) -> Result<Stream, Reason> {
    let mut how = OpenOptions::new();
    how.read(true);
    Ok(Stream::File(open_by(rt, &how, path)?))
}

// A file to be read and written, which is there.
// Stays: this and `create` differ in the options alone that they give the system; a function for both would be `open_by`, which they call.
pub fn open_update(rt: HostRuntime, path: &[u8]) -> Result<File, Reason> {
    let mut how = OpenOptions::new();
    how.read(true).write(true);
    open_by(rt, &how, path)
}

// A file to be written, which is not there.
// Stays: as `open_update`.
pub fn create(rt: HostRuntime, path: &[u8]) -> Result<File, Reason> {
    let mut how = OpenOptions::new();
    how.write(true).create_new(true);
    open_by(rt, &how, path)
}

// Some bytes into a lent buffer; how many, none at the end.
pub fn read(from: &mut Stream, buf: &mut [u8]) -> Result<usize, Reason>
    ensures { IfOk result (λ n. n ≤ length buf.new) }
{
    match from {
        Stream::Input(input) => read_from(input, buf),
        Stream::File(file) => read_from(file, buf),
    }
}

fn read_from<R: Read>(from: &mut R, buf: &mut [u8]) -> Result<usize, Reason>
    ensures { IfOk result (λ n. n ≤ length buf.new) }
{
    Ok(from.read(buf)?)
}

// Standard input up to its end, or as much of it as there is room for, or as can be read; how many bytes.
pub fn read_input(rt: HostRuntime, buf: &mut [u8]) -> usize
    ensures { result ≤ length buf.new }
{
    let mut from = input(rt);
    let mut to = 0;
    while to < buf.len() {
        match read(&mut from, &mut buf[to..]) {
            Ok(0) => break,
            Ok(n) => to += n,
            Err(_) => break,
        }
    }
    to
}

// All of the bytes to standard output; or why they, or some of them, are not written.
pub fn put(rt: HostRuntime, bytes: &[u8]) -> Result<(), Reason> {
    Ok(Print::write_all(&rt.stdout(), bytes)?)
}

// Likewise, where nothing is to be done if they cannot be written.
pub fn say(rt: HostRuntime, bytes: &[u8]) {
    let _ = put(rt, bytes);
}

// A number's decimal digits, likewise.
pub fn say_number(rt: HostRuntime, n: usize) {
    let _ = rt.print(n);
}

// Likewise to standard error.
pub fn complain(rt: HostRuntime, bytes: &[u8]) {
    let _ = Print::write_all(&rt.stderr(), bytes);
}

// The system's words for an error, as std prints it, in a room of its own. What it has no room for is left out.
// Stays: nothing is allocated, so that they are an array and how much of it is in use.
#[derive(Drop)]
struct Words {
    room: [u8; 256],
    to: usize,
    ghost in_room: { to ≤ 256 },
}

impl Words {
    fn of(why: Reason) -> Self {
        let mut words = Words {
            room: [0; 256],
            to: 0,
        };
        let error = io::Error::from_raw_os_error(why.code);
        let _ = write!(words, "{error}");
        words
    }

    fn front(&self) -> &[u8] {
        let said = &self.room[..self.to];
        &said[..words_end(said)]
    }
}

impl fmt::Write for Words {
    fn write_str(&mut self, s: &str) -> fmt::Result {
        for byte in s.as_bytes() {
            if self.to == self.room.len() {
                return Err(fmt::Error);
            }
            self.room[self.to] = *byte;
            self.to += 1;
        }
        Ok(())
    }
}

// The words before ` (os error 2)`, which std adds.
fn words_end(words: &[u8]) -> usize
    ensures { result ≤ length words.now }
{
    for i in (1..words.len()).rev() {
        if words[i] == b'(' {
            return i - 1;
        }
    }
    words.len()
}

// A line to standard error: what failed, as the caller names it, a colon and the system's words for the reason.
pub fn fail(rt: HostRuntime, what: &[u8], why: Reason) {
    let words = Words::of(why);
    for part in [what, b": ", words.front(), b"\n"] {
        complain(rt, part);
    }
}

// Whether the reason is that there is no such file.
pub fn is_no_file(why: Reason) -> bool {
    why.code == ENOENT
}

// Gives an open file the length that it has. Of what is no file, as a folder or a device, none can be given.
pub fn keep_length(file: &mut File) -> Result<(), Reason> {
    match file.seek(SeekFrom::End(0)) {
        Ok(length) => Ok(file.set_len(length)?),
        Err(_) => Err(Reason { code: EINVAL }),
    }
}

// Stays: no helper for a list: it writes to a device.
// All of the bytes into an open file, as far as its device, and the file closed. That the closing fails is not said.
pub fn fill(mut file: File, bytes: &[u8]) -> Result<(), Reason> {
    file.write_all(bytes)?;
    Ok(file.sync_all()?)
}

// A file by another name, in place of what has it.
pub fn rename(rt: HostRuntime, from: &[u8], to: &[u8]) -> Result<(), Reason> {
    let old = str::from_utf8(from)?;
    let new = str::from_utf8(to)?;
    Ok(fs::rename(&rt, old, new)?)
}

pub fn remove(rt: HostRuntime, path: &[u8]) -> Result<(), Reason> {
    let name = str::from_utf8(path)?;
    Ok(fs::remove_file(&rt, name)?)
}

#[cfg(test)]
mod tests {
    use super::*;

    // What a line says after a colon, for the system's number of an error.
    fn is_said(code: i32, said: &[u8]) -> bool {
        let words = Words::of(Reason { code });
        words.front() == said
    }

    #[test]
    fn reasons_are_the_systems_words(rt: HostRuntime) {
        assert!(rt; is_said(ENOENT, b"No such file or directory"));
        assert!(rt; is_said(EIO, b"Input/output error"));
        assert!(rt; is_said(EINVAL, b"Invalid argument"));
        assert!(rt; is_said(ENAMETOOLONG, b"File name too long"));
        assert!(rt; is_said(21, b"Is a directory"));
        assert!(rt; is_said(28, b"No space left on device"));
        assert!(rt; is_said(EILSEQ, b"Invalid or incomplete multibyte or wide character"));
    }

    #[test]
    fn a_missing_file_is_told_from_others(rt: HostRuntime) {
        assert!(rt; is_reason(open(rt, b"no such file"), ENOENT));
        assert!(rt; is_reason(open(rt, b""), ENOENT));
        assert!(rt; is_reason(open(rt, b"\xff"), EILSEQ));
        assert!(rt; is_reason(open(rt, &[b'a'; NAME]), ENAMETOOLONG));
        assert!(rt; is_reason(open(rt, b"a\0b"), EINVAL));
    }

    fn is_reason(got: Result<Stream, Reason>, code: i32) -> bool {
        match got {
            Ok(_) => false,
            Err(why) => why.code == code,
        }
    }
}
