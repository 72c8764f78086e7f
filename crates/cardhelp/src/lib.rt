// What `card --help` and `card --version` print, and what is said where the arguments are none of those that there are.
#![tactic(auto)]

use helptext::print_lines;

const LINES: [&[u8]; 26] = [
    b"card pack RULES [FILE]   a file of Prolog facts with its least plan, as a card\n",
    b"card check FILE          what a card holds, or why it is refused\n",
    b"card mend BAD [FILE]     what can be had of a bad card, and a card of that\n",
    b"card --help, -h          this\n",
    b"card --version           the version\n\n",
    b"RULES is a file of facts as `ask` reads it. A card has their table and plan, in\n",
    b"at most 66 blocks of 512 bytes; names are numbers there, as in a table. With no\n",
    b"FILE the card goes to standard output. Otherwise it is written as FILE.new, and\n",
    b"renamed to FILE when it is whole: where that fails, an old FILE is left as it\n",
    b"was. A FILE.new that is there is not touched; one that a run left behind which\n",
    b"was cut off may be removed.\n\n",
    b"Of a card that is whole, packed, checked or mended, there is one line:\n",
    b"    shop.card: 12 rules, 4 columns, 39 branches, 2 blocks\n\n",
    b"BAD is any file. Where its block 0 is sound, the rules from the top are kept, up\n",
    b"to the first bad block or the first rule that no card may have; and the plan, if\n",
    b"all rules are kept and it is whole and theirs. Otherwise a least plan is made.\n",
    b"Three lines say so. Where FILE is named, a card of that is written, as from\n",
    b"RULES; BAD is left as it is:\n",
    b"    10 of 12 rules kept, 2 dropped\n",
    b"    the plan is new\n",
    b"    bad blocks: 1\n\n",
    b"What is refused is said on standard error, with the refusal's name and number\n",
    b"and with what is expected: of RULES with line and column, as `ask` says it, of a\n",
    b"card with the block, or with the cell of its table or its plan, counted from 0:\n",
    b"    shop.card: table, cell 1: COUNT 3: 1 to 64 rules are expected\n",
    b"The program needs 2 MB of stack, and always ends with status 0.\n",
];

pub fn print(rt: HostRuntime) {
    print_lines(rt, &LINES);
}

pub fn version(rt: HostRuntime) {
    print_lines(rt, &[b"card 0.1.0\n"]);
}

// To standard error, where it can be written.
pub fn refuse(rt: HostRuntime) {
    console::complain(
        rt,
        b"usage: card pack RULES [FILE], card check FILE, card mend BAD [FILE], card --help or card --version\n",
    );
}
