// The flags of a state's open places as one number (02, W-213): bit i is set where open place i is inside a named column.
ghost use Rattle.std.specs.Prelude.{◌≡◌, ◌<◌, ◌^◌};
ghost use Rattle.state.specs.Flags.{may_in, spread_of, with_column, mask_from, past_from};

// Place i may be chosen: it is inside a named column, or no open place is.
pub fn may(named: u64, i: u32) -> bool
    ensures { result ≡ may_in named i }
{
    if named == 0 {
        return true;
    }
    if 63 < i {
        return false;
    }
    (named >> i) & 1 == 1
}

// The flags below a branch at place i whose cell has so many arguments: the place's flag so many times in its place. Where no flag
// stands none does below, which is all that a plan with no column named asks. At most 32 places are open.
pub fn spread(named: u64, i: u32, args: usize) -> u64
    ensures { result ≡ spread_of named i args }
{
    if named == 0 {
        return 0;
    }
    if 31 < i {
        return 0;
    }
    if 4 < args {
        return 0;
    }
    if 0xffffffff < named {
        return 0;
    }
    let rest = named >> i;
    let low = named - (rest << i);
    let high = (rest >> 1) << args;
    if rest & 1 == 0 {
        return low + (high << i);
    }
    let ones = (1 << args) - 1;
    low + ((ones + high) << i)
}

// One column more, of the 8 that a table can have.
fn with_column(mask: u64, c: usize) -> u64
    requires { mask < 2 ^ 8 }
    ensures { (result ≡ with_column mask c) × (result < 2 ^ 8) }
{
    if 7 < c {
        return mask;
    }
    if (mask >> c) & 1 == 0 {
        return mask + (1 << c);
    }
    mask
}

// The named columns of a list as bits, and one more than the largest of its numbers; both 0 where it is empty.
#[derive(Clone, Copy, PartialEq, Eq)]
pub struct Named {
    pub mask: u64,
    pub past: usize,
}

pub fn named_of(columns: &[u32]) -> Named
    ensures { (result.mask ≡ mask_from 0 columns.now) × (result.past ≡ past_from 0 columns.now) }
{
    let mut mask = 0;
    let mut past = 0;
    for column in columns {
        let c = *column as usize;
        mask = with_column(mask, c);
        past = past.max(c + 1);
    }
    Named { mask, past }
}
