// Blocks of a file: the two running sums, the sound blocks of a file, a block put into a lent room of bytes.
#![tactic(auto)]

ghost use Rattle.std.specs.Prelude.{◌≡◌, ◌+◌, ◌*◌, ◌≤◌, ◌∷◌, length};
ghost use Rattle.octets.specs.Octets.{Put, bytes_of};
ghost use Rattle.blocks.specs.Sums.{first, second};
ghost use Rattle.blocks.specs.Blocks.{sound, block_at, Found, block_of};

// The check words of a block.
#[derive(Drop)]
pub struct Checks {
    pub one: u32,
    pub two: u32,
}

// The two running sums of a number and cells, by wrapping add.
pub fn sums(number: u32, cells: &[u32]) -> Checks
    ensures { (result.one ≡ first 1 (number ∷ cells.now)) × (result.two ≡ second 1 0 (number ∷ cells.now)) }
{
    let mut one = number.wrapping_add(1);
    // from 0, with the first sum added
    let mut two = one;
    for c in cells {
        one = one.wrapping_add(*c);
        two = two.wrapping_add(one);
    }
    Checks { one, two }
}

// Whether 128 words are the block of this number: its number and both check words. Numbers are compared as places, so that a block at place
// 2^32 or later can have no right number.
fn is_sound(number: usize, block: &[u32]) -> bool
    requires { length block.now ≡ 128 }
    ensures { result ≡ sound number block.now }
{
    let s = sums(block[0], &block[1..126]);
    if block[0] as usize != number {
        return false;
    }
    if block[126] != s.one {
        return false;
    }
    block[127] == s.two
}

// A block of a file that has it: its words, and whether it is sound.
fn look(file: &[u8], i: usize, block: &mut [u32]) -> bool
    requires { (512 * i + 512 ≤ length file.now) × (length block.old ≡ 128) }
    ensures { (block.new ≡ block_at file.now i) × (result ≡ sound i (block_at file.now i)) }
{
    let a = 512 * i;
    let e = a + 512;
    octets::read_cells(&file[a..e], block);
    is_sound(i, block)
}

// The sound blocks from one on, by way of a lent block.
fn run_in(file: &[u8], from: usize, block: &mut [u32], room: &mut [u32]) -> usize
    requires { length block.old ≡ 128 }
    ensures { Found file.now from room.old room.new result }
{
    let count = file.len() / 512;
    let mut on = 0;
    for i in from..count {
        if !look(file, i, block) {
            return i - from;
        }
        on = octets::cells::put_cells(room, on, &block[1..126]);
    }
    count.saturating_sub(from)
}

// The sound blocks of a file from one on, up to the first that is not: how many they are. Their cells are put at the front of a room, as
// far as it goes. Less than a block at the end is none.
pub fn sound_run(file: &[u8], from: usize, room: &mut [u32]) -> usize
    ensures { Found file.now from room.old room.new result }
{
    let mut block = [0u32; 128];
    run_in(file, from, &mut block, room)
}

// A block put into a lent room of bytes.
pub fn put_block(out: &mut [u8], to: usize, number: u32, cells: &[u32]) -> usize
    ensures { Put out.old out.new to (bytes_of (block_of number cells.now)) result }
{
    let s = sums(number, cells);
    let a = octets::cells::write_cell(out, to, number);
    let b = octets::cells::write_cells(out, a, cells);
    let d = octets::cells::write_cell(out, b, s.one);
    octets::cells::write_cell(out, d, s.two)
}
