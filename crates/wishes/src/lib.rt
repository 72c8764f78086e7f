// What the arguments of the program ask ask for: options, then the file, then goals.
#![tactic(auto)]

use console::NAME;

// What is printed of a file of facts: the answers to goals; these, and what they add up to; the plan as a tree, as a picture, or as Prolog; or the
// plan that a file of goals likes best, which is this argument.
#[derive(Clone, Copy)]
pub enum Print {
    Answers,
    Counts,
    Tree,
    Picture,
    Clauses,
    Tuned(usize),
}

// What is printed, and which arguments are what: the list of known columns, where there is one; the file of facts; and the goals, from a first one up
// to an end.
#[derive(Clone, Copy)]
pub struct Call {
    pub print: Print,
    pub known: Option<usize>,
    pub file: usize,
    pub goal: usize,
    pub end: usize,
}

// The help, the version, or something of a file of facts.
#[derive(Clone, Copy)]
pub enum Asked {
    Help,
    Version,
    Of(Call),
}

// What an option says is printed.
#[derive(Clone, Copy)]
pub enum Wish {
    Help,
    Version,
    Print(Print),
}

// An argument before the goals: an option that says what is printed, the one that a list of columns follows, the one that a file of goals
// follows, or the file of facts.
#[derive(Clone, Copy)]
pub enum Word {
    Wish(Wish),
    Known,
    Tune,
    File,
}

// No file's name begins with `-`, so that a misspelt option is none of these.
fn word_of(word: &[u8]) -> Option<Word> {
    match word {
        b"--known" => Some(Word::Known),
        b"--tune" => Some(Word::Tune),
        b"--count" => Some(Word::Wish(Wish::Print(Print::Counts))),
        b"--plan" => Some(Word::Wish(Wish::Print(Print::Tree))),
        b"--dot" => Some(Word::Wish(Wish::Print(Print::Picture))),
        b"--prolog" => Some(Word::Wish(Wish::Print(Print::Clauses))),
        b"--help" | b"-h" => Some(Word::Wish(Wish::Help)),
        b"--version" => Some(Word::Wish(Wish::Version)),
        [b'-', ..] => None,
        _ => Some(Word::File),
    }
}

fn argument(rt: HostRuntime, i: usize) -> Option<Word> {
    let mut word = [0u8; NAME];
    let n = console::word(rt, i, &mut word);
    word_of(&word[..n])
}

// What the options before the file ask for.
#[derive(Clone, Copy)]
struct Options {
    wish: Option<Wish>,
    known: Option<usize>,
}

impl Options {
    // With one more that says what is printed. There is one such at most.
    fn wishing(self, wish: Wish) -> Option<Self> {
        if self.wish.is_some() {
            return None;
        }
        Some(Options {
            wish: Some(wish),
            known: self.known,
        })
    }

    // With a list of columns, which is asked for once at most.
    fn knowing(self, list: usize) -> Option<Self> {
        if self.known.is_some() {
            return None;
        }
        Some(Options {
            wish: self.wish,
            known: Some(list),
        })
    }

    // With a file, and the arguments after it up to an end: its plan has no goals, a plan that is looked for has no columns before that, and the help
    // has no file.
    fn naming(self, file: usize, goal: usize, end: usize) -> Option<Asked> {
        let print = match self.wish {
            None => Print::Answers,
            Some(Wish::Print(print)) => print,
            Some(Wish::Help | Wish::Version) => return None,
        };
        let fits = match print {
            Print::Answers | Print::Counts => true,
            Print::Tree | Print::Picture | Print::Clauses => end <= goal,
            Print::Tuned(_) => end <= goal && self.known.is_none(),
        };
        if !fits {
            return None;
        }
        Some(Asked::Of(Call {
            print,
            known: self.known,
            file,
            goal,
            end,
        }))
    }

    // With no file there is only the help, or the version.
    fn alone(self) -> Option<Asked> {
        match (self.wish, self.known) {
            (Some(Wish::Help), None) => Some(Asked::Help),
            (Some(Wish::Version), None) => Some(Asked::Version),
            _ => None,
        }
    }
}

// A call by the arguments from a first one up to an end; nothing where they make no sense. What stands after `--known` is its list, and after
// `--tune` its file, whatever it is.
pub fn read(rt: HostRuntime, first: usize, end: usize) -> Option<Asked> {
    let mut options = Options {
        wish: None,
        known: None,
    };
    let mut follows = false;
    for i in first..end {
        if follows {
            follows = false;
            continue;
        }
        match argument(rt, i)? {
            Word::Wish(wish) => options = options.wishing(wish)?,
            Word::Known => {
                options = options.knowing(i + 1)?;
                follows = true;
            }
            Word::Tune => {
                options = options.wishing(Wish::Print(Print::Tuned(i + 1)))?;
                follows = true;
            }
            Word::File => return options.naming(i, i + 1, end),
        }
    }
    options.alone()
}
