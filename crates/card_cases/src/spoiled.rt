// What the program card says of cards that are spoiled: calls say it to standard error, which is not stored.
use slices::bytes::part;

// What is said of a file, after a name.
fn show(rt: HostRuntime, file: &[u8]) {
    let mut out = [0u8; 256];
    let a = octets::put_word(&mut out, 0, b"card");
    let (Ok(n) | Err(n)) = cardcheck::put_checked(&mut out, a, file);
    console::say(rt, part(&out, 0, n));
}

// What mending says of it.
fn mend(rt: HostRuntime, file: &[u8]) {
    let mut out = [0u8; 256];
    let mut card = [0u8; 512];
    let n = match cardmend::put_mended(&mut out, b"card", file, &mut card) {
        Ok(mended) => mended.report,
        Err(n) => n,
    };
    console::say(rt, part(&out, 0, n));
}

// One block of these cells, with its check words, at the front of a file.
fn put_first(file: &mut [u8], cells: &[u32]) {
    let mut all = [0u32; 125];
    octets::cells::put_cells(&mut all, 0, cells);
    blocks::put_block(file, 0, 0, &all);
}

fn block(cells: &[u32]) -> [u8; 512] {
    let mut file = [0u8; 512];
    put_first(&mut file, cells);
    file
}

// The table `1 1 a`, the plan `0 1 a 1`, a being the name 0.
fn whole(rt: HostRuntime) {
    show(rt, &block(&[3, 4, 1, 1, 0x40000000, 0, 1, 0x40000000, 1]));
}

// BLOCKS, DAMAGE, SIZES, PADDING.
fn files(rt: HostRuntime) {
    let mut file = [0u8; 1025];
    show(rt, &file[..0]);
    show(rt, &file[..511]);
    show(rt, &file);
    let cells = [0u32; 125];
    blocks::put_block(&mut file, 0, 0, &cells);
    blocks::put_block(&mut file, 512, 2, &cells);
    show(rt, part(&file, 0, 1024));
    blocks::put_block(&mut file, 512, 1, &cells);
    show(rt, part(&file, 0, 1024));
    show(rt, &block(&[3, 504, 1, 1, 0x40000000, 0, 1, 0x40000000, 1]));
    show(
        rt,
        &block(&[3, 4, 1, 1, 0x40000000, 0, 1, 0x40000000, 1, 1]),
    );
}

// LENGTH, WIDTH, COUNT, LONG, SHORT, CELL, FRESH, SAME, EXTRA, each with the plan `0 1 a 1`.
fn tables(rt: HostRuntime) {
    show(rt, &block(&[1, 4, 1, 0, 1, 0x40000000, 1]));
    show(rt, &block(&[3, 4, 9, 1, 0x40000000, 0, 1, 0x40000000, 1]));
    show(rt, &block(&[3, 4, 1, 65, 0x40000000, 0, 1, 0x40000000, 1]));
    long(rt);
    show(rt, &block(&[3, 4, 2, 1, 0x40000000, 0, 1, 0x40000000, 1]));
    show(rt, &block(&[3, 4, 1, 1, 0xc0000000, 0, 1, 0x40000000, 1]));
    show(rt, &block(&[3, 4, 1, 1, 1, 0, 1, 0x40000000, 1]));
    show(
        rt,
        &block(&[4, 4, 1, 2, 0x40000000, 0x40000000, 0, 1, 0x40000000, 1]),
    );
    show(
        rt,
        &block(&[4, 4, 1, 1, 0x40000000, 0x40000000, 0, 1, 0x40000000, 1]),
    );
}

// A rule of 33 cells, and no plan.
fn long(rt: HostRuntime) {
    let mut cells = [0x40010000u32; 36];
    cells[..4].copy_from_slice(&[35, 0, 1, 1]);
    show(rt, &block(&cells));
}

// ENDS, OPEN, EDGES, LABEL, ROWS, EXTRA.
fn plans(rt: HostRuntime) {
    let spoiled: [&[u32]; 6] = [
        &[3, 3, 1, 1, 0x40000000, 0, 1, 0x40000000],
        &[3, 4, 1, 1, 0x40000000, 64, 1, 0x40000000, 1],
        &[3, 4, 1, 1, 0x40000000, 0, 2, 0x40000000, 1],
        &[3, 4, 1, 1, 0x40000000, 0, 1, 0x40000001, 1],
        &[3, 4, 1, 1, 0x40000000, 0, 1, 0x40000000, 2],
        &[3, 5, 1, 1, 0x40000000, 0, 1, 0x40000000, 1, 0],
    ];
    for cells in spoiled {
        show(rt, &block(cells));
    }
}

// SIZE: a plan of 6,083 cells, in 49 blocks.
fn size(rt: HostRuntime) {
    let mut file = [0u8; 25088];
    blocks::put_block(&mut file, 0, 0, &first_of(6083));
    put_rest(&mut file, &[0u32; 125]);
    show(rt, &file);
}

fn put_rest(file: &mut [u8], cells: &[u32]) {
    let mut to = 512;
    for i in 1..49 {
        to = blocks::put_block(file, to, i, cells);
    }
}

fn first_of(plan: u32) -> [u32; 125] {
    let mut cells = [0u32; 125];
    cells[..5].copy_from_slice(&[3, plan, 1, 1, 0x40000000]);
    cells
}

// HEAD: no byte, a part of a block, 9 columns, 65 rules. NONE: a rule with a cell of no kind, a table of two cells.
fn lost(rt: HostRuntime) {
    let file = [0u8; 511];
    mend(rt, &file[..0]);
    mend(rt, &file);
    mend(rt, &block(&[3, 4, 9, 1, 0x40000000, 0, 1, 0x40000000, 1]));
    mend(rt, &block(&[3, 4, 1, 65, 0x40000000, 0, 1, 0x40000000, 1]));
    mend(rt, &block(&[3, 4, 1, 1, 0xc0000000, 0, 1, 0x40000000, 1]));
    mend(rt, &block(&[2, 4, 1, 1, 0, 1, 0x40000000, 1]));
}

// A whole card; a second rule with a cell of no kind; a whole card with a block of zeros and a part of one after it.
fn mended(rt: HostRuntime) {
    mend(rt, &block(&[3, 4, 1, 1, 0x40000000, 0, 1, 0x40000000, 1]));
    mend(
        rt,
        &block(&[4, 4, 1, 2, 0x40000000, 0xc0000000, 0, 1, 0x40000000, 1]),
    );
    let mut file = [0u8; 1025];
    put_first(&mut file, &[3, 4, 1, 1, 0x40000000, 0, 1, 0x40000000, 1]);
    mend(rt, &file);
}

pub fn show_all(rt: HostRuntime) {
    whole(rt);
    files(rt);
    tables(rt);
    plans(rt);
    size(rt);
    lost(rt);
    mended(rt);
}
