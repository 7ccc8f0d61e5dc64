// What main signals, block signals and distants show, over the tables of a state that are lent (section 4).
#![tactic(auto)]

mod aspects;
mod block_signals;
mod distants;
mod main_signals;
mod numbers;

pub use block_signals::{Secured, block_shown, may_enter, may_enter_line};
pub use distants::distant_shown;
pub use main_signals::{falls_to, is_clear, main_shown};
pub use numbers::{Shown, number_shown};
