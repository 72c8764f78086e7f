// Numbers that are stored one after another.
ghost use Rattle.std.specs.Prelude.{◌≡◌, ◌+◌, ◌-◌, ◌≤◌, ◌<◌, length, set, replicate};
ghost use Rattle.std.proofs.lemmas.List.Edits.{sets};
ghost use Rattle.limits.specs.Limits.{most_table_cells};

// Those from a place up to another become 0.
pub fn clear(out: &mut [u32], from: usize, to: usize)
    requires { (from ≤ to) × (to ≤ length out.old) }
    ensures { out.new ≡ sets out.old from (replicate (to - from) 0) }
{
    out[from..to].fill(0);
}

// Cells are put from a place on.
pub fn copy(out: &mut [u32], at: usize, cells: &[u32])
    requires { at + length cells.now ≤ length out.old }
    ensures { out.new ≡ sets out.old at cells.now }
{
    octets::cells::put_cells(out, at, cells);
}

// A small number is put at a place.
pub fn put(out: &mut [u32], at: usize, n: usize)
    requires { (at < length out.old) × (n ≤ most_table_cells) }
    ensures { out.new ≡ set out.old at n }
{
    out[at] = n as u32;
}
