//! What the code of small programs is: listings of each instruction, codes of expressions and of statements, and codes
//! that print what they should.
#![tactic(auto)]

#[cfg(test)]
mod code;
#[cfg(test)]
mod codegen;
#[cfg(test)]
mod exprgen;
