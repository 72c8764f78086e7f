// For each open name, the outermost first, how many of its arguments are complete: 0 to 3, four of them in a byte, so that the 32,766 names
// that a text can open take 8 kB.
ghost use Rattle.std.specs.Prelude.{◌≡◌, ◌/◌, ◌%◌, ◌≤◌, ◌<◌, length};
ghost use Rattle.scan.specs.code.Levels.{weight_of, level_at, stored};

// What one counts in its byte.
fn weight(level: usize) -> usize
    ensures { (result ≡ weight_of (level % 4)) × (1 ≤ result) × (result ≤ 64) }
{
    match level % 4 {
        0 => 1,
        1 => 4,
        2 => 16,
        _ => 64,
    }
}

pub fn level(dones: &[u8], level: usize) -> usize
    requires { level / 4 < length dones.now }
    ensures { (result ≡ level_at dones.now level) × (result < 4) }
{
    let byte = usize::from(dones[level / 4]);
    byte / weight(level) % 4
}

pub fn put_level(dones: &mut [u8], level: usize, done: usize)
    requires { (level / 4 < length dones.old) × (done < 4) }
    ensures { dones.new ≡ stored dones.old level done }
{
    let i = level / 4;
    let w = weight(level);
    let byte = usize::from(dones[i]);
    let others = byte - byte / w % 4 * w;
    dones[i] = (others + done * w) as u8;
}
