ghost use Rattle.std.specs.Prelude.{◌≡◌, ◌<◌, ◌+ℤ◌, cond, slice_set, IfOk, FitsSigned};
ghost use Rattle.std.specs.Int.{w64};
ghost use Rattle.caf_reduce.specs.Tree.{first_parts};
ghost use Rattle.caf_reduce.specs.Sum.{IsMissing, is_missing, sum_of, total_of, given_of, emptied, emptied_part};

use crate::tree::first_part;
use crate::{Given, Memory, Part};
use std::alloc::Global;
use std::marker::Model;

/// The sum that one rank of a team gathers: its own part and the sums of its children, each once.
#[derive(Debug, Drop)]
pub struct Summer {
    parts: Vec<Part>,
    // How many ranks give a part, and how many of these parts are missing.
    all: u32,
    missing: u32,
    // The sum of the parts that are there.
    sum: i64,
}

impl Model for Summer {
    ghost use Rattle.std.specs.Prelude.{◌≡◌, List};
    ghost use Rattle.caf_reduce.specs.declared.part.Part.{Part};

    ghost Value = { List Part };

    ghost use Rattle.caf_reduce.specs.Summer.{IsSummer};

    ghost view = { λ summer. summer.parts.items };

    ghost invariant = { IsSummer };
}

impl Summer {
    /// For a rank of a team of this size, with all parts missing. It takes memory and time in proportion to the size.
    pub fn new(alloc: Global, size: u32, rank: u32) -> Result<Summer, Memory>
        ensures { IfOk result (λ summer. summer ≡ first_parts size rank) }
    {
        let mut parts = Vec::new(alloc);
        let mut all = 0;
        for from in 0..size {
            let part = first_part(size, rank, from);
            all += count(part);
            parts.push(part)?;
        }
        Ok(Summer {
            parts,
            all,
            missing: all,
            sum: 0,
        })
    }

    /// Takes the part of a rank.
    pub fn give(&mut self, from: u32, sum: i64) -> Given
        requires missing { IsMissing self.old from }
        requires fits { FitsSigned w64 (sum_of self.old +ℤ sum) }
        ensures parts { self.new ≡ slice_set self.old from (Part.Present sum) }
        ensures given { result ≡ given_of self.new }
    {
        self.parts[from as usize] = Part::Present(sum);
        self.missing -= 1;
        self.sum += sum;
        match self.total() {
            Some(sum) => Given::Whole(sum),
            None => Given::Waiting,
        }
    }

    /// The sum of all parts, and `None` while some part is missing.
    pub fn total(&self) -> Option<i64>
        ensures { result ≡ total_of self.now }
    {
        if self.missing == 0 {
            Some(self.sum)
        } else {
            None
        }
    }

    /// Makes all parts missing. It takes time in proportion to the size of the team.
    pub fn reset(&mut self)
        ensures { self.new ≡ emptied self.old }
    {
        empty(self.parts.as_mut_slice());
        self.missing = self.all;
        self.sum = 0;
    }
}

// 1 for a part that is missing, and 0 for any other.
fn count(part: Part) -> u32
    ensures { result ≡ cond (is_missing part) 1 0 }
{
    if part == Part::Missing { 1 } else { 0 }
}

// Makes each part missing.
fn empty(parts: &mut [Part])
    ensures { parts.new ≡ emptied parts.old }
{
    for part in parts.iter_mut() {
        *part = emptied_part(*part);
    }
}

// The part before it was given.
fn emptied_part(part: Part) -> Part
    ensures { result ≡ emptied_part part }
{
    match part {
        Part::Outside => Part::Outside,
        Part::Missing | Part::Present(_) => Part::Missing,
    }
}
