//! Small programs as trees: what they mean, each step of a task over them, and runs of the source machine.
#![tactic(auto)]

#[cfg(test)]
mod history;
#[cfg(test)]
mod pending;
#[cfg(test)]
mod program;
#[cfg(test)]
mod solo;
#[cfg(test)]
mod source;
#[cfg(test)]
mod treestep;
