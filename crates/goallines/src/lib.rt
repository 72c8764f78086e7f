// Goals from a file or from standard input, one to a line; the last may have no line feed. A buffer is lent for the lines.
#![tactic(auto)]

ghost use Rattle.std.specs.Prelude.{◌≡◌, ◌<◌, ◌↔◌, true, false, length, IsTrue, IfSome, OnErr};
ghost use Rattle.std.proofs.Math.Seq.{slice};
ghost use Rattle.linecut.specs.Cut.{line_end};

use console::{Reason, Stream};
use lex::fact::Head;
use linecut::line_end;

// A line; a part of one that fills the buffer, which goes on; or the last line.
#[derive(Clone, Copy)]
pub enum Kind {
    Line,
    Part,
    Last,
}

// Some bytes of the buffer; how many lines stand above them; and whether they are the rest of a line that is too long.
#[derive(Clone, Copy)]
pub struct Piece {
    pub start: usize,
    pub end: usize,
    pub above: usize,
    pub rest: bool,
    pub kind: Kind,
}

// A stream, and a buffer for its lines, in which bytes from a place up to another are read and not yet looked at; how many lines are above; whether
// this is inside of a line that is too long; and whether it goes on.
// Stays: nothing is allocated, so that what is read is a lent buffer and which part of it is in use.
#[derive(Drop)]
pub struct Lines<'a> {
    stream: Stream,
    buf: &'a mut [u8],
    from: usize,
    to: usize,
    above: usize,
    inside: bool,
    pub going: bool,
}

impl<'a> Lines<'a> {
    // Before anything is read.
    pub fn new(stream: Stream, buf: &'a mut [u8]) -> Self
        ensures { result.going ≡ true }
    {
        Lines {
            stream,
            buf,
            from: 0,
            to: 0,
            above: 0,
            inside: false,
            going: true,
        }
    }

    // Whether a whole line is left of what was read.
    pub fn has_line(&self) -> bool
        ensures { IsTrue result ↔ line_end self.now.buf.now self.now.from self.now.to < self.now.to }
    {
        line_end(self.buf, self.from, self.to) < self.to
    }

    // The next piece, of which some bytes may be read already. Where the reading fails, it ends.
    pub fn next(&mut self) -> Result<Piece, Reason>
        ensures { OnErr result (self.new.going ≡ false) }
    {
        let from = self.from;
        let to = self.to;
        let end = line_end(self.buf, from, to);
        if end < to {
            return Ok(self.line(from, end, to));
        }
        let have = linecut::move_front(self.buf, from, to);
        self.going = false;
        self.read_piece(have)
    }

    // The piece that begins at the front of the buffer, of which so many bytes are there and none of them is a line feed.
    fn read_piece(&mut self, have: usize) -> Result<Piece, Reason>
        requires { self.old.going ≡ false }
        ensures { OnErr result (self.new.going ≡ false) }
    {
        let mut to = have;
        while to < self.buf.len() {
            let n = self.read_behind(to)?;
            let all = reading::ahead(to, n, self.buf.len());
            let end = line_end(self.buf, to, all);
            if end < all {
                return Ok(self.line(0, end, all));
            }
            if n == 0 {
                return Ok(self.whole(to, Kind::Last));
            }
            to = all;
        }
        Ok(self.whole(to, Kind::Part))
    }

    // Some bytes behind those that there are; how many.
    fn read_behind(&mut self, to: usize) -> Result<usize, Reason>
        requires { self.old.going ≡ false }
        ensures shut { self.new.going ≡ false }
        ensures same_length { length self.new.buf.now ≡ length self.old.buf.now }
    {
        let Lines { stream, buf, .. } = self;
        reading::read_behind(stream, buf, to)
    }

    // A line from a place of the buffer up to another. Up to a third there are more bytes behind it.
    fn line(&mut self, start: usize, end: usize, to: usize) -> Piece {
        let piece = self.piece(start, end, Kind::Line);
        self.from = end.saturating_add(1);
        self.to = to;
        self.above = marks::further(self.above, 1);
        self.inside = false;
        self.going = true;
        piece
    }

    // All that is read, the last line or a part of one.
    fn whole(&mut self, to: usize, kind: Kind) -> Piece {
        let piece = self.piece(0, to, kind);
        let goes_on = is_part(kind);
        self.from = 0;
        self.to = 0;
        self.inside = goes_on;
        self.going = goes_on;
        piece
    }

    fn piece(&self, start: usize, end: usize, kind: Kind) -> Piece {
        Piece {
            start,
            end,
            above: self.above,
            rest: self.inside,
            kind,
        }
    }

    // The goal that a piece is. A line that has nothing but layout and comments is none, and neither is the rest of one that is too long, whose front
    // is one without a look.
    pub fn goal(&self, piece: Piece) -> Option<&[u8]>
        ensures { IfSome result (λ goal. goal.now ≡ slice piece.start piece.end self.now.buf.now) }
    {
        let bytes = slices::bytes::part(self.buf, piece.start, piece.end);
        if !piece.rest && (is_part(piece.kind) || stands(bytes)) {
            return Some(bytes);
        }
        None
    }
}

fn is_part(kind: Kind) -> bool {
    matches!(kind, Kind::Part)
}

// Whether anything stands in a line but layout and comments.
fn stands(goal: &[u8]) -> bool {
    !matches!(lex::fact::next_fact(goal, 0, false), Head::End)
}
