ghost use Rattle.std.specs.Prelude.{◌≡◌, ◌+◌, ◌++◌, [], ◌∷◌, length, OnOk, IfOk};
ghost use Rattle.caf_treestep.specs.Evaluated.{held_by_part};
ghost use Rattle.caf_codegen.specs.StmtCode.{part_code, part_text, parts_code, part_texts};

use crate::emit::{gen_value, place, put};
use caf_base::{Memory, Sequence, Text};
use caf_code::{Instr, Printed};
use caf_program::PrintR;
use std::alloc::Global;

/// The code of one part of a line; the place behind the values that it holds is the result.
fn gen_part(
    alloc: Global,
    part: &PrintR,
    held: u32,
    code: &mut Vec<Instr>,
    texts: &mut Sequence<Text>,
) -> Result<u32, Memory>
    ensures code { OnOk result (code.new.items ≡ code.old.items ++ part_code part.now held (length texts.old)) }
    ensures texts { OnOk result (texts.new ≡ texts.old ++ part_text part.now) }
    ensures next { IfOk result (λ next. next ≡ held + held_by_part part.now) }
{
    match part {
        PrintR::Number(e) => {
            let next = gen_value(e, held, code)?;
            put(code, Instr::Print(Printed::Number))?;
            Ok(next)
        }
        PrintR::Logical(e) => {
            let next = gen_value(e, held, code)?;
            put(code, Instr::Print(Printed::Logical))?;
            Ok(next)
        }
        PrintR::Text(text) => {
            let number = place(texts.len())?;
            texts.push(Text::copy_of(alloc, text.as_str())?)?;
            put(code, Instr::Print(Printed::Text(number)))?;
            Ok(held)
        }
    }
}

/// The code of a printed line: its parts from the left, and then the line's end.
pub(crate) fn gen_print(
    alloc: Global,
    parts: &[PrintR],
    code: &mut Vec<Instr>,
    texts: &mut Sequence<Text>,
) -> Result<(), Memory>
    ensures code { OnOk result (code.new.items ≡ code.old.items ++ parts_code parts.now 0 (length texts.old)) }
    ensures texts { OnOk result (texts.new ≡ texts.old ++ part_texts parts.now) }
{
    let mut held = 0;
    for part in parts {
        held = gen_part(alloc, part, held, code, texts)?;
    }
    put(code, Instr::Line)
}
