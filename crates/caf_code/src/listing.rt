use crate::Instr;
use caf_base::{Object, Sequence, Text};

/// A subroutine of a code.
#[derive(Drop)]
pub struct SubCode {
    /// The address of its first instruction.
    pub address: u32,
    /// For each dummy whether it is `intent(inout)`, and so copied out.
    pub dummies: Sequence<bool>,
    /// The number of its locals, without the dummies.
    pub locals: u32,
}

/// A program for the virtual machine. The address of an instruction is its place, from 0.
#[derive(Drop)]
pub struct Listing {
    pub objects: Sequence<Object>,
    pub subs: Sequence<SubCode>,
    /// The texts that are printed.
    pub texts: Sequence<Text>,
    pub instrs: Sequence<Instr>,
}
