//! The loop over many clocks of a foreground. It gives what as many calls of `Fore::advance` give, and looks for
//! clocks that it can pass over, and for such as it can make at once or with less.
#![tactic(auto)]

mod ahead;
mod bus;
mod clock;
mod fetches;
mod line;
mod lookout;
mod quiet;
mod run;
mod turn;

pub use run::run_to;
