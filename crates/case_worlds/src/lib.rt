//! Cases on a plain world: the script, roms and devices that it is opened with, and tables of steps under marks.
//!
//! Each is made by public calls from what the case gives, as a text that is to be the case's own. docs/DEVELOPING.md tells the
//! form. Nothing is promised but safety; it knows no command and no whole run.
#![tactic(auto)]

mod outcomes;
mod settings;
mod steps;

pub use outcomes::{fault_text, have_few_cells, numbered};
pub use settings::Setting;
pub use steps::play_tables_of_steps;
