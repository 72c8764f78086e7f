// The plan that a list of goals likes best (liked), printed: which columns it looks at first, what the goals try by it and by the plain plan, and
// its words.
#![tactic(auto)]

use goalfile::Goals;
use limits::PLAN_CELLS;
use page::Printer;
use shop::Shop;
use slices::cells::part;

// For rules from a file of that name. A table that was read is refused no more, and 6,082 cells are enough for every plan.
pub fn print(shop: Shop<'_>, path: &[u8], goals: Goals<'_>, printer: &mut Printer<'_>) {
    let mut plan = [0u32; PLAN_CELLS];
    let mut best = [0usize; 3];
    let by = shop::measure();
    match liked::build_liked(
        by,
        shop.table,
        goals.cells,
        goals.list,
        &mut plan,
        &mut best,
    ) {
        Ok(built) => {
            put_best(path, goals, best, printer);
            treetext::print(&shop.with_plan(part(&plan, 0, built.cells)), printer);
            printer.flush();
        }
        Err(f) => {
            let n = refusals::put_facts_refusal(printer.room, path, shop.text, f);
            printer.complain(n);
        }
    }
}

// The set of columns as a number, and what the goals try with it and without.
fn put_best(path: &[u8], goals: Goals<'_>, best: [usize; 3], printer: &mut Printer<'_>) {
    let [mask, tried, plain] = best;
    let named = liked::columns_of(mask);
    let columns = part(&named.list, 0, named.count);
    let count = goals.list.len() / 2;
    let a = tunewords::put_look(printer.room, 0, columns, path);
    printer.page.to = tunewords::put_counted(printer.room, a, count, goals.refused, tried, plain);
}
