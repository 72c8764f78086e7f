// The limits of documents 01 and 02, each once, and what follows from them: what no table, row, goal, plan, text or reply exceeds. For contracts
// they stand in specs/Limits.
#![tactic(auto)]

// Columns of a table: 01, "width (1 to 8)".
pub const COLUMNS: usize = 8;

// Rows of a table: 01, "row count (1 to 64)".
pub const ROWS: usize = 64;

// Cells of a row, and of a goal: 01, "at most 32 cells", "1 to 32 cells in all".
pub const ROW_CELLS: usize = 32;

// Cells of a table: 01, "at most 2,050 cells": width and row count, and the rows.
pub const TABLE_CELLS: usize = 2 + ROWS * ROW_CELLS;

// Branches of a plan: each closes a cell of a row.
pub const BRANCHES: usize = ROWS * ROW_CELLS;

// Cells of a plan: 01, "3·B + 2 − L cells, at most 6,082", there being a leaf for each row.
pub const PLAN_CELLS: usize = 3 * BRANCHES + 2 - ROWS;

// Bytes of a text: 02, W-201, "BYTES for over 65,535 bytes".
pub const TEXT_BYTES: usize = 65535;

// Bytes of a goal's text: a text's, less the line end and the full stop that are put behind it before it is read.
pub const GOAL_BYTES: usize = TEXT_BYTES - 2;

// Names of a table: each stands in a cell of a row.
pub const NAMES: usize = ROWS * ROW_CELLS;

// Cells of a reply: 02, W-203, "1,024 cells are enough for one".
pub const REPLY_CELLS: usize = 1024;

// Cells in which a row and a goal are met: those of two replies.
pub const MEETING_CELLS: usize = 2 * REPLY_CELLS;

// What is kept for the pairs of a first and a last row: 02, W-207, three numbers for each.
pub const KEPT_CELLS: usize = 3 * ROWS * ROWS;

// Numbers of a record: 02, W-207; two, a table's cells, and what is kept for pairs of rows.
pub const RECORD_CELLS: usize = 2 + TABLE_CELLS + KEPT_CELLS;
