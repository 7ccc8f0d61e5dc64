// What `lengths` prints (request L13).
#![tactic(auto)]

mod answer;
mod places;
mod sheet;

pub use answer::put_answer;
pub use sheet::put_sheet;
