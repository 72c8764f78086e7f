// The open places of a state: slots, each with a link to the next open place. Slot 0 is the head, whose link leads to the first. A place is
// closed by two links that lead past it. Each branch of a state has a copy of the state's links, so no link is put back.
ghost use Rattle.std.specs.Prelude.{◌≡◌, ◌+◌, ◌≤◌, ◌<◌};
ghost use Rattle.table.specs.All.{All};
ghost use Rattle.table.specs.Table.{up_from};
ghost use Rattle.plannotes.specs.code.Places.{steps, hop_of, last_new, Spot, Closed};

// The links before any place is closed: each slot leads to the next number.
pub fn first_links() -> [u8; 64]
    ensures { result ≡ up_from 1 64 }
{
    let mut links = [0u8; 64];
    for s in 0..64 {
        links[s] = (s + 1) as u8;
    }
    links
}

// Where so many links lead from the head.
fn hop(links: &[u8; 64], i: usize) -> usize
    requires { All (λ x. x < 64) (steps links.now i 0) }
    ensures { result ≡ hop_of links.now i 0 }
{
    let mut slot = 0;
    for _ in 0..i {
        slot = usize::from(links[slot]);
    }
    slot
}

// The slot that is to lead past a closed place: the last of the `a` new ones from `free` on; where there is none, the slot before it.
fn last_new(before: usize, free: usize, a: usize) -> usize
    requires { free + a ≤ 63 }
    ensures { result ≡ last_new before free a }
{
    if a == 0 { before } else { free + (a - 1) }
}

// Closes the place with index `i`: `a` new slots from `free` on stand where its slot did, which is answered.
pub fn close(links: &mut [u8; 64], i: usize, a: usize, free: usize) -> usize
    requires { Spot links.old i a free }
    ensures { (w : Spot links.old i a free) → Closed w links.new result }
{
    let before = hop(&*links, i);
    let slot = usize::from(links[before]);
    let past = links[slot];
    let last = last_new(before, free, a);
    links[before] = free as u8;
    links[last] = past;
    slot
}
