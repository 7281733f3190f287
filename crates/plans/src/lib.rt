// The plan language: what a line says, and how what a call says is told. Nothing here reads or writes a file; the programs
// over it do.
#![tactic(auto)]

mod answer;
mod command;
mod decimal;
mod text;
mod words;

pub use answer::{Answer, Given, Said};
pub use command::{Call, Command, Counter, Entry, LONGEST, Lengths, LineError};
pub use decimal::number;
pub use text::{bytes_before, literal_before, number_before};
