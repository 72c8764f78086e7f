// What is turned away (01, "What is turned away"): why, which input, where.
#![tactic(auto)]

ghost use Rattle.std.specs.Prelude.{◌≡◌, ◌<◌, ◌^◌};
ghost use Rattle.refusal.specs.Refusal.{reason_number, input_of};

// 01, "What is turned away", and 02, W-201, "BYTES; TEXT; OTHER", W-204, "FIGURE", W-207, "FULL .. LAST .. INDEX",
// W-208, "SAME", W-209, "BIG", W-210, "NAMES", W-211, "BLOCKS .. DAMAGE .. SIZES .. PADDING", W-212, "HEAD .. NONE": the
// names, in the order of their numbers. "TWICE is never given again" (W-209): 8 is no reason's number.
#[derive(Clone, Copy, PartialEq, Eq)]
pub enum Reason {
    Length = 1,
    Width = 2,
    Count = 3,
    Long = 4,
    Short = 5,
    Cell = 6,
    Fresh = 7,
    Extra = 9,
    Size = 10,
    Ends = 11,
    Open = 12,
    Edges = 13,
    Label = 14,
    Rows = 15,
    Room = 16,
    Bytes = 17,
    Text = 18,
    Other = 19,
    Figure = 20,
    Full = 21,
    Last = 22,
    Index = 23,
    Same = 24,
    Big = 25,
    Names = 26,
    Blocks = 27,
    Damage = 28,
    Sizes = 29,
    Padding = 30,
    Head = 31,
    None = 32,
    Column = 33,
    Early = 34,
}

// 01, "which input it concerns (table, plan, goal or lent room)"; or a text (02, W-201), a figure (W-204),
// a list of names (W-210), a file (W-211), or a list of columns (W-213).
#[derive(Clone, Copy, PartialEq, Eq)]
pub enum Input {
    Table = 1,
    Plan = 2,
    Goal = 3,
    Lent = 4,
    Text = 5,
    Figure = 6,
    Names = 7,
    File = 8,
    Columns = 9,
}

// What a refusal returns: its reason, by which it has 01's number, the input that it concerns, and a place.
#[derive(Clone, Copy, PartialEq, Eq)]
pub struct Refusal {
    pub reason: Reason,
    pub input: Input,
    pub place: usize,
}

// 01's number of a reason; it fits eight bits (specs/Coded). A reason added later is a line above, a line in specs/Refusal and two lines of
// proofs/RefusalLaws; an input likewise.
pub fn number_of(reason: Reason) -> usize
    ensures { (result ≡ reason_number reason) × (result < 2 ^ 8) }
{
    reason as usize
}

// The number of an input; it fits eight bits.
pub fn input_of(input: Input) -> usize
    ensures { (result ≡ input_of input) × (result < 2 ^ 8) }
{
    input as usize
}
