// The one fixed table of the files, and one reader for every file: from bytes to rows of cells, or
// the first refusal. Assumes nothing of the bytes.
#![tactic(auto)]

mod answer;
mod columns;
mod constraint;
mod files;
mod headers;
mod kinds;
mod ranges;
mod reading;
mod rows;

pub use answer::AnswerRow;
pub use columns::{FORM, Form, MAXIMUM, MINIMUM, first_column};
pub use constraint::ConstraintRow;
pub use files::{File, Kind, Refusal, fewest_rows, most_rows, number, width};
pub use headers::{
    CONSTRAINT_HEADER, CURVES_HEADER, PARENTS_HEADER, SCHEDULES_HEADER, SUPPLY_HEADER,
};
pub use kinds::{C, M, kind_of, letter_of};
pub use ranges::in_column;
pub use reading::read;
