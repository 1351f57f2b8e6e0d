//! JSON: functions read and printed, and reports printed.
//!
//! A function in JSON is an object with the keys `order`, `f` and `value`, and both or neither of
//! `left` and `right`. `read_json` reads one over the value that `serde_json` gives of the text,
//! and names the first test that fails; `show_json` prints the one text of a function, which is
//! read as that function; `report` prints a verdict with the lines of its proof.
//!
//! The definitions stand in `specs/`: which text is which function (`JsonFunction`), why a text is
//! none (`FirstReason`), and what is printed (`JsonText`).
#![tactic(auto)]

mod entries;
mod faults;
mod form;
mod laws;
mod read;
mod reports;
mod show;

pub use faults::{JsonFault, JsonReason};
pub use laws::{no_reason_in_json_function, one_first_reason, one_function_in_json};
pub use read::read_json;
pub use reports::report;
pub use show::show_json;
