// What a host in C, Rust or Python calls: every public function of the library over numbers, pointers to numbers, and lists as a pointer and a length.
// The result of each function is 0 where it was accepted, else it says the refusal's number and place. What it answers goes into
// lent memory, which a refusal leaves as it was. include/senyolanda.h declares each.
#![tactic(auto, unfolding(crate::specs::Told::told))]

mod adjustable;
mod balloon;
mod bonds;
mod books;
mod codes;
mod date_counts;
mod dated;
mod dated_swaps;
mod interest_only;
mod kinds;
mod lists;
mod loans;
mod models;
mod plain;
mod pools;
mod record_bytes;
mod results;
mod spreads;
mod swap_values;
mod years;
mod yield_curves;
