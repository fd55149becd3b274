//! Tests of the whole program: over memory, and over the real folder, input and output.
#![tactic(auto)]

#[cfg(test)]
mod adapters;
#[cfg(test)]
mod failing;
#[cfg(test)]
mod gates;
#[cfg(test)]
mod groups;
#[cfg(test)]
mod refusing;
#[cfg(test)]
mod runs;
#[cfg(test)]
mod scenarios;
#[cfg(test)]
mod tests;
#[cfg(test)]
mod words;
