// The arguments of a fact, read once.
ghost use Rattle.std.specs.Prelude.{◌≡◌, ◌+◌, true, ◌*◌, ◌≤◌, ◌<◌, length};
ghost use Rattle.scan.specs.code.Arguments.{spot, Ready, MoveIs, Reads};
ghost use Rattle.limits.specs.Limits.{most_text_bytes};

use super::levels;
use lex::{Stop, turn};
use turn::Turn;

// Where the reader is inside a fact: the place, whether a term has just been read, how many names are open, the fact's complete arguments,
// its symbols.
#[derive(Clone, Copy)]
pub struct Spot {
    pub at: usize,
    pub past: bool,
    pub depth: usize,
    pub done: usize,
    pub symbols: usize,
}

// One turn further: on; the fact's own bracket is closed, and the place after it; or no text goes on so.
#[derive(Drop)]
pub enum Move {
    Go(Spot),
    Closed(usize),
    Stop(usize),
}

// After a symbol that opens no bracket.
fn after_symbol(sp: Spot, at: usize) -> Spot
    requires { sp.symbols ≤ most_text_bytes }
    ensures { result ≡ spot at true sp.depth sp.done (sp.symbols + 1) }
{
    Spot {
        at,
        past: true,
        symbols: sp.symbols + 1,
        ..sp
    }
}

// One turn. `dones` has for each open name, the outermost first, how many of its arguments are complete.
fn move_on(text: &[u8], sp: Spot, dones: &mut [u8]) -> Move
    requires { Ready text.now dones.old sp }
    ensures { MoveIs text.now dones.old sp dones.new result }
{
    match turn::next_turn(text, sp.at, sp.past) {
        Turn::Name(_, e) => Move::Go(after_symbol(sp, e)),
        Turn::Open(_, e) => {
            levels::put_level(dones, sp.depth, 0);
            Move::Go(Spot {
                at: e + 1,
                past: false,
                depth: sp.depth + 1,
                symbols: sp.symbols + 1,
                ..sp
            })
        }
        Turn::Variable(_, e) => Move::Go(after_symbol(sp, e)),
        Turn::Number(_, e) => Move::Go(after_symbol(sp, e)),
        Turn::Comma(p) => {
            let next = Spot {
                at: p + 1,
                past: false,
                ..sp
            };
            if sp.depth == 0 {
                return Move::Go(Spot {
                    done: sp.done + 1,
                    ..next
                });
            }
            let top = sp.depth - 1;
            let k = levels::level(dones, top);
            if 3 <= k {
                return Move::Stop(p);
            }
            levels::put_level(dones, top, k + 1);
            Move::Go(next)
        }
        Turn::Close(p) => {
            if sp.depth == 0 {
                return Move::Closed(p + 1);
            }
            Move::Go(Spot {
                at: p + 1,
                past: true,
                depth: sp.depth - 1,
                ..sp
            })
        }
        Turn::Stop(p) => Move::Stop(p),
    }
}

// A fact's arguments: the place after its bracket, how many there are, less one, and how many symbols.
#[derive(Clone, Copy)]
pub struct Arguments {
    pub next: usize,
    pub last: usize,
    pub symbols: usize,
}

pub fn read_arguments(text: &[u8], at: usize, dones: &mut [u8]) -> Result<Arguments, Stop>
    requires { (at ≤ length text.now) × (length text.now ≤ most_text_bytes) × (length text.now < 8 * length dones.old) }
    ensures { Reads text.now at result }
{
    let mut sp = Spot {
        at,
        past: false,
        depth: 0,
        done: 0,
        symbols: 0,
    };
    loop {
        match move_on(text, sp, dones) {
            Move::Go(s) => {
                sp = s;
            }
            Move::Closed(q) => {
                return Ok(Arguments {
                    next: q,
                    last: sp.done,
                    symbols: sp.symbols,
                });
            }
            Move::Stop(p) => {
                return Err(Stop { at: p });
            }
        }
    }
}
