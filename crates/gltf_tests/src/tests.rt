//! Each generic at a type of its own, iterators from either end, items over documents, records and
//! copies.

mod bounds;
mod callers;
mod copies;
mod errors;
mod every_list;
mod first_steps;
mod items;
mod iterators;
mod own;
mod records;
mod texts;
