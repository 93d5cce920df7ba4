//! Finishes driven by hand: their waves and sums, and lists of finish events that keep the rules or break them.
#![tactic(auto)]

#[cfg(test)]
mod audit;
#[cfg(test)]
mod desk;
