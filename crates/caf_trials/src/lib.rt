//! Tables of whole texts: tests that carry traces through the top call, that print each form of the language and read it
//! again, and that run the code of programs beside their trees.
#![tactic(auto)]

#[cfg(test)]
mod agreement;
#[cfg(test)]
mod tests;
