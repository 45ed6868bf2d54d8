//! Tests of behavior that the program does not expose: library calls one by one, inputs in memory,
//! streams that fail at each call or transfer one byte at a time, initial guesses, custom solvers,
//! step counts, and certificates that no file can contain; with the comparison that they use. All
//! other cases are in `examples/rows`, which run the program.
#![tactic(auto)]

#[cfg(test)]
mod asking;
#[cfg(test)]
mod bound;
#[cfg(test)]
mod calls;
#[cfg(test)]
mod choice_cases;
mod comparison;
#[cfg(test)]
mod ends;
#[cfg(test)]
mod guesses;
#[cfg(test)]
mod hashes;
#[cfg(test)]
mod instances;
#[cfg(test)]
mod pieces;
#[cfg(test)]
mod run_cases;
#[cfg(test)]
mod scaling_cases;
#[cfg(test)]
mod shapes;
#[cfg(test)]
mod solvers;
#[cfg(test)]
mod statements;
#[cfg(test)]
mod steps;
#[cfg(test)]
mod texts;
#[cfg(test)]
mod trials;
#[cfg(test)]
mod values;
#[cfg(test)]
mod worlds;

pub use comparison::expect;
