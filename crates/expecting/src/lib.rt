// What is expected where no text goes on (TEXT): the types of what is said, and of how a text is looked through for it. Mathematics
// otherwise.
#![tactic(auto)]

// What a text takes at a place, as a message names it.
#[derive(Clone, Copy)]
pub enum What {
    // a rule's name
    Name,
    // the next rule's name, or the end
    Next,
    // the bracket of a rule's name
    Open,
    Term,
    // after a minus sign
    Digit,
    // a comma or a bracket after a term
    Mark,
    // a bracket only: a name has no more arguments
    Close,
    // a full stop
    Full,
    // layout after a full stop, or the end
    Blank,
}

// What stands there instead, where a message says so.
#[derive(Clone, Copy)]
pub enum Found {
    // a tab, where layout may stand
    Tab,
    // a digit with which a number leaves the range
    Large,
    Other,
}

// A message.
#[derive(Clone, Copy)]
pub struct Wanted {
    pub what: What,
    pub found: Found,
}

// What was read last: the modes of the grammar's reader without their numbers.
#[derive(Clone, Copy)]
pub enum Stand {
    First,
    Head,
    Arg,
    Name,
    Variable,
    Minus,
    Number,
    After,
    Closed,
    Stop,
    Between,
}

// What is known of the bytes so far: whether they end in a comment, how many names are open inside the rule, and how many commas the open
// name of one level has.
#[derive(Clone, Copy)]
pub struct Sight {
    pub stand: Stand,
    pub comment: bool,
    pub depth: usize,
    pub commas: usize,
}
