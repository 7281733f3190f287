// The rows that a plan is carried out on, and the calls on them.
#![tactic(auto)]

mod calls;
mod db;
mod dump;

pub use db::{Db, OWN, Work};
