// Further cases of the program planlist: the listing of each is printed after those before it.
ghost use Rattle.std.specs.Prelude.{◌≡◌, ◌+◌, ◌≤◌, length};

// Names by their letters, with as many arguments as the last digit says.
const A0: u32 = 0x40000001;

const B0: u32 = 0x40000002;

const F2: u32 = 0x40020007;

const G1: u32 = 0x40010008;

const H4: u32 = 0x40040009;

const X0: u32 = 0x40000018;

const Y0: u32 = 0x40000019;

const Z0: u32 = 0x4000001a;

// The whole number 0; a number n is n more, and -n has 65,536 - n more.
const ZERO: u32 = 0x80000000;

// Prints the listing of any bytes.
// Stays: one function for this and for the texts would take the list as a closure over a room of N bytes, and say more than the two.
fn show(rt: HostRuntime, bytes: &[u8]) {
    let mut out = [0u8; 43035];
    let n = listing::list_table(bytes, &mut out);
    console::say(rt, &out[..n]);
}

// Prints the listing of some cells, each as four bytes, the least significant first.
fn show_cells(rt: HostRuntime, cells: &[u32])
    requires { length cells.now ≤ 2050 }
{
    let mut bytes = [0u8; 8200];
    for (four, c) in bytes.chunks_exact_mut(4).zip(cells) {
        four.copy_from_slice(&c.to_le_bytes());
    }
    show(rt, &bytes[..4 * cells.len()]);
}

// Nested names, variables and numbers.
fn nested(rt: HostRuntime) {
    let seven = ZERO + 7;
    let less = ZERO + 65535;
    // (f(g(a), v0), 7) (f(g(b), v0), v1) (f(g(b), -1), 7) (v0, 7) (h(v0, a, v1, 0), g(v2))
    show_cells(
        rt,
        &[
            2, 5, F2, G1, A0, 0, seven, F2, G1, B0, 0, 1, F2, G1, B0, less, seven, 0, seven, H4, 0,
            A0, 1, ZERO, G1, 2,
        ],
    );
}

// -1, -32,768, 32,767, 0: the numbers next to their bounds.
fn bounds(rt: HostRuntime) {
    show_cells(rt, &[1, 4, ZERO + 65535, ZERO + 32768, ZERO + 32767, ZERO]);
}

// Rows whose least plan looks at the second place first: 01's six without the two doubled ones.
fn second_place(rt: HostRuntime) {
    // (a,x,x,x) (a,y,y,y) (b,y,y,y) (b,z,z,z)
    show_cells(
        rt,
        &[
            4, 4, A0, X0, X0, X0, A0, Y0, Y0, Y0, B0, Y0, Y0, Y0, B0, Z0, Z0, Z0,
        ],
    );
}

// Width 2, 64 rows: sixteen with n1/0 first, sixteen with n2/0, and so on; each has its own number second.
fn sixty_four() -> [u32; 130] {
    let mut cells = [0u32; 130];
    cells[0] = 2;
    cells[1] = 64;
    for r in 0..64u32 {
        let row = r as usize;
        cells[2 * row + 2] = A0 + r / 16;
        cells[2 * row + 3] = ZERO + r;
    }
    cells
}

pub fn show_all(rt: HostRuntime) {
    // a variable used twice in a row: v0 where it is first met, and v0 where it is met again
    show_cells(rt, &[2, 1, 0, 0]);
    // a row's first variable with the number 1
    show_cells(rt, &[1, 1, 1]);
    // a row without variables used twice in a table
    show_cells(rt, &[1, 3, A0, B0, A0]);
    // no bytes, a cell and one byte more, one cell too many, and as many as may be
    show(rt, b"");
    show(rt, &[2u8, 0, 0, 0, 2]);
    show(rt, &[0u8; 8204]);
    show(rt, &[0u8; 8200]);
    nested(rt);
    bounds(rt);
    second_place(rt);
    show_cells(rt, &sixty_four());
}
