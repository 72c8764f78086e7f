// Further cases of the program textlist: the lines of each text are printed after those before it.
// Prints the lines of any bytes.
// Stays: one function for this and for the plans would take the list as a closure over a room of N bytes, and say more than the two.
fn show(rt: HostRuntime, text: &[u8]) {
    let mut out = [0u8; 43030];
    let n = textlines::list_text(text, &mut out);
    console::say(rt, &out[..n]);
}

// BYTES, and TEXT near the start.
fn no_texts(rt: HostRuntime) {
    show(rt, &[b' '; 65536]);
    show(rt, &[b' '; 65535]);
    show(rt, b"");
    show(rt, b"P(a).");
    show(rt, b"p");
    show(rt, b"p.");
    show(rt, b"p (a).");
    show(rt, b"p().");
    show(rt, b"p('a').");
    show(rt, b"p([]).");
    show(rt, b"p(+1).");
    show(rt, b"p(9a).");
    show(rt, b"p(A(a)).");
}

// TEXT further on.
fn stopped(rt: HostRuntime) {
    show(rt, b"p(a)");
    show(rt, b"p(f (a)).");
    show(rt, b"p(a b).");
    show(rt, b"p(a):-q.");
    show(rt, b"p(a).p(b).");
    show(rt, b"p(a).\t");
    show(rt, b"p(a). .");
    show(rt, b"p(32768).");
    show(rt, b"p(f(a,b,c,d,e)).");
    show(rt, b"p(a). q(b). !");
    show(rt, b"% no fact");
}

// TEXT at or after a minus sign.
fn no_numbers(rt: HostRuntime) {
    show(rt, b"p(- 1).");
    show(rt, b"p(--1).");
    show(rt, b"p(-a).");
    show(rt, b"p(-%\n1).");
    show(rt, b"p(-");
    show(rt, b"p(a-1).");
    show(rt, b"p(-32769).");
}

// OTHER, and what is no table: WIDTH, LONG, SAME.
fn no_tables(rt: HostRuntime) {
    show(rt, b"p(a). q(b).");
    show(rt, b"p(a). pp(a).");
    show(rt, b"p(a). p(a,b).");
    show(rt, b"p(a). p(b). q(c).");
    show(rt, b"p(a,a,a,a,a,a,a,a,a).");
    // f 32 times, each inside the one before
    show(
        rt,
        b"p(f(f(f(f(f(f(f(f(f(f(f(f(f(f(f(f(f(f(f(f(f(f(f(f(f(f(f(f(f(f(f(f(a))))))))))))))))))))))))))))))))).",
    );
    show(rt, b"p(a). p(b). p(a).");
}

// What is printed.
fn tables(rt: HostRuntime) {
    show(rt, b"p(a,b,a).");
    show(rt, b"p(f,f(a)).");
    show(rt, b"p(p).");
    show(rt, b"p(_,_X,_Y,_).");
    // a variable twice in a fact; `_` is another each time
    show(rt, b"p(X,X).");
    show(rt, b"p(_,X,f(Y,X,_),Y). p(_,X,_,X).");
    show(rt, b"p(00000032767,0).");
    show(rt, b"p(-1,-32768,-0).");
    show(rt, b"p(32767). p(-7).");
    show(rt, b"p(-00,f(-007)).");
    // it ends inside a comment
    show(rt, b"p(a). % p(b).");
    show(rt, b"\r\np( a , B )\n. % one\n% two\np(b,\n_).");
}

// The fact `p(a00).`, then `p(a01).` and so on, a line to each: 65 of them.
fn facts() -> [u8; 520] {
    let mut text = [b'\n'; 520];
    for n in 0..65usize {
        let at = 8 * n;
        text[at] = b'p';
        text[at + 1] = b'(';
        text[at + 2] = b'a';
        text[at + 3] = 48 + (n / 10) as u8;
        text[at + 4] = 48 + (n % 10) as u8;
        text[at + 5] = b')';
        text[at + 6] = b'.';
    }
    text
}

// One fact with 2,049 arguments, each of them `a`.
fn wide() -> [u8; 4101] {
    let mut text = [b','; 4101];
    text[0] = b'p';
    text[1] = b'(';
    for n in 0..2049usize {
        text[2 * n + 2] = b'a';
    }
    text[4099] = b')';
    text[4100] = b'.';
    text
}

pub fn show_all(rt: HostRuntime) {
    no_texts(rt);
    stopped(rt);
    no_numbers(rt);
    no_tables(rt);
    tables(rt);
    // LENGTH: the table has one cell too many
    show(rt, &wide());
    // COUNT, and one fact less
    let all = facts();
    show(rt, &all);
    show(rt, &all[..512]);
}
