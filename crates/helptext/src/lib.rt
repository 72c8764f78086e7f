// What `--help` and `--version` print, and what is said where the arguments are none of those that there are.
#![tactic(auto)]

const HELP: [&[u8]; 35] = [
    b"ask FILE [GOAL ..]   which rules of a file of Prolog facts fit each goal\n",
    b"ask --count FILE ..  the same, and at the end how often each rule fitted\n",
    b"ask --plan FILE      in which order the rules' arguments are looked at\n",
    b"ask --dot FILE       that order as a picture: ask --dot FILE | dot -Tsvg\n",
    b"ask --prolog FILE    that order as Prolog clauses, which answer as the rules do\n",
    b"ask --tune JOBS FILE which columns to look at first for goals like those of JOBS\n",
    b"ask --help, -h       this\n",
    b"ask --version        the version\n\n",
    b"With --known 1,3 before FILE these columns are looked at first, for goals in\n",
    b"which they are always filled in. Columns are the rules' arguments, from 1.\n\n",
    b"A goal is a term of the facts' predicate, as rule(9, red, bowl(Size), Firing); a\n",
    b"final `.` is allowed. With no GOAL, goals are read from standard input, one to a\n",
    b"line; a line that is blank or a comment (%) is passed over.\n\n",
    b"For each goal there is a line for each rule that fits, from the top:\n",
    b"    rule 3, line 7: rule(9, red, bowl(small), medium)\n",
    b"the rule's number, the line of FILE on which it stands, and the answer, with _0,\n",
    b"_1 for variables. An answer of over 131,072 bytes is cut there and ends in ` ..`.\n",
    b"Then how many rules fit, and how much of the plan was looked at for it:\n",
    b"    2 rules fit, 17 of 39 branches tried\n",
    b"The answers to each of several goals, and to goals of standard input, come after\n",
    b"a line with the goal: `?- rule(9, red, bowl(Size), Firing)`.\n\n",
    b"With --count there is a table after all answers: how often each rule fitted, how\n",
    b"many goals were answered and how many refused, and the branches tried in all.\n\n",
    b"With --tune the goals of the file JOBS (`-`: standard input), one to a line, are\n",
    b"run by the plan for each set of columns. Printed are the list for --known with\n",
    b"which they try the fewest branches, how many, how many without it, and that\n",
    b"plan. JOBS has at most 100,000 goals that are not refused, and in all of them\n",
    b"800,000 names, variables and numbers.\n\n",
    b"What is refused is said on standard error, with file, line and column (from 1,\n",
    b"in bytes), with the refusal's name and number, and with what is expected there:\n",
    b"    shop.pl:3:14: TEXT 18: `,` or `)` is expected\n",
    b"For a goal the file is `goal 2`, `standard input` or JOBS. Goals after one that\n",
    b"is refused are answered. FILE has at most 65,535 bytes and 64 rules, a goal\n",
    b"65,533 bytes, an answer 1,024 names, variables and numbers, its cells. The\n",
    b"program needs 1 MB of stack, with --tune 6 MB, and always ends with status 0.\n",
];

// Lines, one after another. The first that cannot be written is said and ends it.
pub fn print_lines(rt: HostRuntime, lines: &[&[u8]]) {
    for line in lines {
        if let Err(why) = console::put(rt, line) {
            console::fail(rt, b"cannot write standard output", why);
            return;
        }
    }
}

pub fn print(rt: HostRuntime) {
    print_lines(rt, &HELP);
}

pub fn version(rt: HostRuntime) {
    print_lines(rt, &[b"ask 0.1.0\n"]);
}

// To standard error, where it can be written.
pub fn refuse(rt: HostRuntime) {
    console::complain(
        rt,
        b"usage: ask [--known LIST] [--count] FILE [GOAL ..], ask [--known LIST] --plan FILE, ask [--known LIST] --dot FILE, ask [--known LIST] --prolog FILE, ask --tune JOBS FILE, ask --help or ask --version\n",
    );
}

// Likewise, of a list of columns that is none.
pub fn refuse_list(rt: HostRuntime) {
    console::complain(
        rt,
        b"usage: --known 1,3: the numbers of columns, the first being 1, with commas and no blanks between them\n",
    );
}
