//! What all commands share: the arguments that ask for one, its files, read in the order of the arguments, what becomes of what is due for their
//! bytes, and the one line on the note.
#![tactic(auto)]

mod arguments;
mod command;
mod delivery;
mod ending;
mod files;
pub mod laws;
mod line;
mod name;
mod note;
mod outcome;

pub use arguments::{Request, first_command, requested};
pub use command::Command;
pub use delivery::deliver;
pub use ending::Ending;
pub use files::read_files;
pub use name::Name;
pub use note::{put_ending, put_usage};
pub use outcome::{Cause, Outcome, Reply};
