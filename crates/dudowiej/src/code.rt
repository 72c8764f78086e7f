// An answer as one number: 2^16 · first + 2^32 · second, or of a refusal number + 2^8 · input + 2^16 · place (crate refusal, specs/Coded).
ghost use Rattle.std.specs.Prelude.{◌≡◌};
ghost use Rattle.refusal.specs.Refusal.{Answer, told, answered, turned};
ghost use Rattle.refusal.specs.Coded.{coded, Small};
ghost use Rattle.salvaging.specs.Salvage.{saved};
ghost use Rattle.salvaging.specs.Answers.{report_told, salvage_told};
ghost use Rattle.dudowiej.specs.Coded.{cut, told_by, salvage_says, report_after};

use answer::RunCounts;
use answerroom::AnswerTextSize;
use builder::BuiltPlan;
use clauses::ProgramSize;
use filing::{Contents, Written};
use goaltext::GoalTextSize;
use instance::ReplyCounts;
use prolog::TextSize;
use refusal::Refusal;
use salvaging::Report;
use table::{GoalSize, TableRead, TableSize};

// What was done, as the two numbers that are answered for it.
pub trait Numbers {
    ghost told: { Self → Answer };

    fn numbers(self) -> (usize, usize)
        ensures { answered result.0 result.1 ≡ told self };
}

// One number alone: the second is 0.
impl Numbers for usize {
    ghost told = { λ n. answered n 0 };

    fn numbers(self) -> (usize, usize) {
        (self, 0)
    }
}

impl Numbers for TableRead {
    ghost told = { λ n. answered n.width n.rows };

    fn numbers(self) -> (usize, usize) {
        (self.width, self.rows)
    }
}

impl Numbers for TableSize {
    ghost told = { λ n. answered n.width n.rows };

    fn numbers(self) -> (usize, usize) {
        (self.width, self.rows)
    }
}

impl Numbers for GoalSize {
    ghost told = { λ n. answered n.cells n.vars };

    fn numbers(self) -> (usize, usize) {
        (self.cells, self.vars)
    }
}

impl Numbers for RunCounts {
    ghost told = { λ n. answered n.hits n.tried };

    fn numbers(self) -> (usize, usize) {
        (self.hits, self.tried)
    }
}

impl Numbers for ReplyCounts {
    ghost told = { λ n. answered n.replies n.cells };

    fn numbers(self) -> (usize, usize) {
        (self.replies, self.cells)
    }
}

impl Numbers for BuiltPlan {
    ghost told = { λ n. answered n.cells n.cost };

    fn numbers(self) -> (usize, usize) {
        (self.cells, self.cost)
    }
}

impl Numbers for TextSize {
    ghost told = { λ n. answered n.cells n.names };

    fn numbers(self) -> (usize, usize) {
        (self.cells, self.names)
    }
}

impl Numbers for GoalTextSize {
    ghost told = { λ n. answered n.cells n.names };

    fn numbers(self) -> (usize, usize) {
        (self.cells, self.names)
    }
}

impl Numbers for AnswerTextSize {
    ghost told = { λ n. answered n.cells n.bytes };

    fn numbers(self) -> (usize, usize) {
        (self.cells, self.bytes)
    }
}

impl Numbers for ProgramSize {
    ghost told = { λ n. answered n.clauses n.bytes };

    fn numbers(self) -> (usize, usize) {
        (self.clauses, self.bytes)
    }
}

impl Numbers for Written {
    ghost told = { λ n. answered n.bytes n.blocks };

    fn numbers(self) -> (usize, usize) {
        (self.bytes, self.blocks)
    }
}

impl Numbers for Contents {
    ghost told = { λ n. answered n.table n.plan };

    fn numbers(self) -> (usize, usize) {
        (self.table, self.plan)
    }
}

impl Numbers for Report {
    ghost told = { λ n. answered n.kept n.dropped };

    fn numbers(self) -> (usize, usize) {
        (self.kept, self.dropped)
    }
}

// What does not fit its bits is cut off: what is answered for a record that no entry made is not known, and the place of a bad block may be any
// number.
pub fn as_number<T: Numbers>(answer: Result<T, Refusal>) -> u64
    ensures { Small (cut (told_by T.told answer)) → result ≡ coded (cut (told_by T.told answer)) }
{
    match answer {
        Ok(done) => {
            let (first, second) = done.numbers();
            values_as_number(first, second)
        }
        Err(f) => refusal_as_number(f),
    }
}

pub fn values_as_number(first: usize, second: usize) -> u64
    ensures { Small (answered first second) → result ≡ coded (answered first second) }
{
    let a = (first % 65536) as u64;
    let b = (second % 4294967296) as u64;
    65536 * a + 4294967296 * b
}

fn refusal_as_number(f: Refusal) -> u64
    ensures { result ≡ coded (cut (turned (told f))) }
{
    let reason = f.reason;
    let input = f.input;
    let n = refusal::number_of(reason) as u64;
    let i = refusal::input_of(input) as u64;
    let p = (f.place % 281474976710656) as u64;
    n + 256 * i + 65536 * p
}

// The rows kept and dropped; the report has them too, and is written where something was saved.
pub fn salvage_as_number(answer: Result<Report, Refusal>, report: &mut [usize; 6]) -> u64
    ensures value { Small (cut (salvage_says (salvage_told answer))) → result ≡ coded (cut (salvage_says (salvage_told answer))) }
    ensures report_after { report.new ≡ report_after (salvage_told answer) report.old }
{
    if let Ok(saved) = answer {
        put_report(saved, report);
    }
    as_number(answer)
}

// A report's numbers; whether the plan was kept is 1 or 0.
fn put_report(a: Report, report: &mut [usize; 6])
    ensures { report.new ≡ report_after (saved (report_told a)) report.old }
{
    let kept = usize::from(a.plan_kept);
    *report = [a.kept, a.dropped, kept, a.table, a.plan, a.bad];
}
