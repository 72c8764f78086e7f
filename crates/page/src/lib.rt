// What is printed, gathered in a lent room and written in large pieces.
#![tactic(auto)]

ghost use Rattle.std.specs.Prelude.{◌≡◌, ◌≤◌, true, false};

// The longest line, and how much is gathered before it is written. A room has 1,024 bytes more than both, for what stands beside an answer.
pub const LINE: usize = 131072;

pub const GATHERED: usize = 32768;

pub const ROOM: usize = 164864;

// How many bytes of the room are not yet written, and whether standard output still takes any.
#[derive(Clone, Copy)]
pub struct Page {
    pub to: usize,
    pub going: bool,
}

// With nothing on it yet.
pub fn blank() -> Page
    ensures empty { result.to ≡ 0 }
    ensures going { result.going ≡ true }
{
    Page { to: 0, going: true }
}

// A page, with the room that it is gathered in.
// Stays: nothing is allocated, so that what is gathered is a lent room and how much of it is in use.
#[derive(Drop)]
pub struct Printer<'a> {
    pub rt: HostRuntime,
    pub room: &'a mut [u8],
    pub page: Page,
}

impl<'a> Printer<'a> {
    // A room with nothing in it yet.
    pub fn new(rt: HostRuntime, room: &'a mut [u8]) -> Self
        ensures empty { result.page.to ≡ 0 }
        ensures going { result.page.going ≡ true }
    {
        let page = blank();
        Printer { rt, room, page }
    }

    // Writes what is gathered. The first write that fails is said, and ends all printing.
    pub fn flush(&mut self)
        ensures written { self.new.page.to ≡ 0 }
        ensures closed { self.old.page.going ≡ false → self.new.page.going ≡ false }
    {
        let to = self.page.to;
        self.page.to = 0;
        self.page.going = self.page.going && print(self.rt, self.room, to);
    }

    // Space for one line.
    pub fn turn(&mut self)
        ensures { self.new.page.to ≤ 32768 }
    {
        if GATHERED < self.page.to {
            self.flush();
        }
    }

    // The first bytes of the room to standard error.
    pub fn complain(&self, to: usize) {
        complain(self.rt, self.room, to);
    }
}

// The first bytes of a room to standard output; whether they are written. That they are not is said.
pub fn print(rt: HostRuntime, room: &[u8], to: usize) -> bool {
    match console::put(rt, slices::bytes::part(room, 0, to)) {
        Ok(()) => true,
        Err(why) => {
            console::fail(rt, b"cannot write standard output", why);
            false
        }
    }
}

// The first bytes of a room to standard error. Where they cannot be written, that cannot be said.
pub fn complain(rt: HostRuntime, room: &[u8], to: usize) {
    console::complain(rt, slices::bytes::part(room, 0, to));
}
