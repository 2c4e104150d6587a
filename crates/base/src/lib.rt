// What every crate of the front stands on: in `number`, numbers in bytes; in `specs`, that a contract determines how a call ends
// (`Once`), and tests of each number below another (`Below`).
#![tactic(auto)]

pub mod number;
