// Runs of designs that are read from texts, and formulas of their jobs.

mod cells;
mod cone;
mod played;
mod resets;
mod rows;
mod table;
