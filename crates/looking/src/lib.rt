// A look at the bytes of a text before a place, one after another, for what is expected there. Every place of every text may be asked, and
// nothing is kept of the bytes but a few numbers.
#![tactic(auto)]

ghost use Rattle.std.specs.Prelude.{◌≡◌, ◌+◌, ◌^◌, ◌<◌, take};
ghost use Rattle.expecting.specs.Looking.{rested, termed, worded, opened, closed, after_comma, seen, glance, look_at};

use expecting::{Sight, Stand};

// After layout.
fn rest_of(stand: Stand) -> Stand
    ensures { result ≡ rested stand }
{
    match stand {
        Stand::Name | Stand::Variable | Stand::Number => Stand::After,
        Stand::Stop => Stand::Between,
        _ => stand,
    }
}

// The first byte of a term that is no minus sign.
fn term_of(byte: u8) -> Stand
    ensures { result ≡ termed byte }
{
    match byte {
        97..=122 => Stand::Name,
        48..=57 => Stand::Number,
        _ => Stand::Variable,
    }
}

// After a letter, a digit or an underscore, with which a term may begin so.
fn word_of(stand: Stand, term: Stand) -> Stand
    ensures { result ≡ worded stand term }
{
    match stand {
        Stand::First | Stand::Head | Stand::Between => Stand::Head,
        Stand::Arg => term,
        Stand::Minus => Stand::Number,
        _ => stand,
    }
}

// After `(`.
#[tactic(auto, using(std::proofs::lemmas::Bool::Decides::nat_tests), unfolding(expecting::specs::Looking::opened))]
fn open_at(level: usize, s: Sight) -> Sight
    requires { s.depth + 1 < 2 ^ 64 }
    ensures { result ≡ opened level s.stand s.depth s.commas }
{
    if matches!(s.stand, Stand::Head) {
        return Sight {
            stand: Stand::Arg,
            comment: false,
            depth: 0,
            ..s
        };
    }
    let depth = s.depth + 1;
    let commas = if depth == level { 0 } else { s.commas };
    Sight {
        stand: Stand::Arg,
        comment: false,
        depth,
        commas,
    }
}

// After `)`.
#[tactic(auto, using(std::proofs::lemmas::Bool::Decides::nat_tests), unfolding(expecting::specs::Looking::closed))]
fn close_at(s: Sight) -> Sight
    ensures { result ≡ closed s.depth s.commas }
{
    if s.depth == 0 {
        return Sight {
            stand: Stand::Closed,
            comment: false,
            ..s
        };
    }
    Sight {
        stand: Stand::After,
        comment: false,
        depth: s.depth - 1,
        ..s
    }
}

// After `,`.
#[tactic(auto, using(std::proofs::lemmas::Bool::Decides::nat_tests))]
fn comma_at(level: usize, s: Sight) -> Sight
    requires { s.commas + 1 < 2 ^ 64 }
    ensures { result ≡ after_comma level s.depth s.commas }
{
    let commas = if s.depth == level {
        s.commas + 1
    } else {
        s.commas
    };
    Sight {
        stand: Stand::Arg,
        comment: false,
        commas,
        ..s
    }
}

// One byte outside a comment.
#[tactic(auto, using(crate::proofs::SeenLaws::seen_laws))]
fn see(level: usize, s: Sight, byte: u8) -> Sight
    requires { (s.depth + 1 < 2 ^ 64) × (s.commas + 1 < 2 ^ 64) }
    ensures { result ≡ seen level s.stand s.depth s.commas byte }
{
    match byte {
        b'%' => Sight {
            stand: rest_of(s.stand),
            comment: true,
            ..s
        },
        b' ' | b'\n' | b'\r' => Sight {
            stand: rest_of(s.stand),
            comment: false,
            ..s
        },
        b'(' => open_at(level, s),
        b')' => close_at(s),
        b',' => comma_at(level, s),
        b'-' => Sight {
            stand: Stand::Minus,
            comment: false,
            ..s
        },
        b'.' => Sight {
            stand: Stand::Stop,
            comment: false,
            depth: 0,
            ..s
        },
        _ => Sight {
            stand: word_of(s.stand, term_of(byte)),
            comment: false,
            ..s
        },
    }
}

// One byte.
#[tactic(auto, using(crate::proofs::SeenLaws::glances))]
fn step(level: usize, s: Sight, byte: u8) -> Sight
    requires { (s.depth + 1 < 2 ^ 64) × (s.commas + 1 < 2 ^ 64) }
    ensures { result ≡ glance level s byte }
{
    if s.comment {
        return Sight {
            comment: byte != b'\n',
            ..s
        };
    }
    see(level, s, byte)
}

// All bytes before a place, and of the open name on one level how many commas it has.
pub fn look(text: &[u8], at: usize, level: usize) -> Sight
    ensures { result ≡ look_at level (take at text.now) }
{
    let mut s = Sight {
        stand: Stand::First,
        comment: false,
        depth: 0,
        commas: 0,
    };
    let before = &text[..at.min(text.len())];
    for byte in before {
        s = step(level, s, *byte);
    }
    s
}
