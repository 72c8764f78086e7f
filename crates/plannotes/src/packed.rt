// The number that is noted of a branch, taken apart (crate plan, specs/Notes).
ghost use Rattle.std.specs.Prelude.{◌≡◌, eqb};
ghost use Rattle.plan.specs.Notes.{cell_in, skip_in, row_noted, slot_in, next_in, alone_in};

pub fn wide(x: u8) -> usize
    ensures { result ≡ x }
{
    x as usize
}

pub fn wide16(x: u16) -> usize
    ensures { result ≡ x }
{
    x as usize
}

// Bits 31..0: the branch's cell.
pub fn cell_of(w: u64) -> u32
    ensures { result ≡ cell_in w }
{
    (w & 0xffffffff) as u32
}

// Bits 43..32: how many branches are below it.
pub fn skip_of(w: u64) -> usize
    ensures { result ≡ skip_in w }
{
    ((w >> 32) & 0xfff) as usize
}

// Bits 49..44: its first row.
pub fn row_of(w: u64) -> u8
    ensures { result ≡ row_noted w }
{
    ((w >> 44) & 0x3f) as u8
}

// Bits 56..51: the first slot that is free below it.
pub fn next_of(w: u64) -> usize
    ensures { result ≡ next_in w }
{
    ((w >> 51) & 0x3f) as usize
}

// Bits 62..57: the slot of the place that its state looks at.
pub fn slot_of(w: u64) -> usize
    ensures { result ≡ slot_in w }
{
    ((w >> 57) & 0x3f) as usize
}

// Bit 63: whether the rest of its row is run by itself.
pub fn alone_of(w: u64) -> bool
    ensures { result ≡ eqb (alone_in w) 1 }
{
    (w >> 63) == 1
}
