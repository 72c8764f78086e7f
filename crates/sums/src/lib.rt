// Counts of 64 bits that never go round: one that would be larger stays at the largest number.
#![tactic(auto)]

ghost use Rattle.std.specs.Prelude.{◌≡◌};
ghost use Rattle.sums.specs.Sums.{up_by};

// So many more; the largest number where they would be still more.
pub fn plus(n: usize, more: usize) -> usize
    ensures { result ≡ up_by n more }
{
    n.saturating_add(more)
}
