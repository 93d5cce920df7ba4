//! Tables of texts: words of a command line, traces, tokens, expressions, programs and their faults.
#![tactic(auto)]

#[cfg(test)]
mod exprparse;
#[cfg(test)]
mod journal;
#[cfg(test)]
mod kinds;
#[cfg(test)]
mod lexer;
#[cfg(test)]
mod parser;
#[cfg(test)]
mod teamcheck;
#[cfg(test)]
mod words;
