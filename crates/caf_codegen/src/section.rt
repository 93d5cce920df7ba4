ghost use Rattle.std.specs.Prelude.{◌≡◌, ◌+◌, ◌++◌, IfOk, OnOk};
ghost use Rattle.caf_program.specs.Expressions.{count_all, of_range, of_region, of_section};
ghost use Rattle.caf_codegen.specs.StmtCode.{aim_code, range_code, range_form, region_code, section_code};

use crate::emit::{gen_value, put};
use crate::place::{form_of, gen_place};
use caf_base::Memory;
use caf_code::{Instr, RangeForm, SectionForm, SectionUse};
use caf_program::{RangeR, RegionR, SectionR};

/// The code of the numbers of a range. The place behind the values that they hold is the result.
fn gen_range(range: &RangeR, held: u32, code: &mut Vec<Instr>) -> Result<u32, Memory>
    ensures code { OnOk result (code.new.items ≡ code.old.items ++ range_code range.now held) }
    ensures next { IfOk result (λ next. next ≡ held + count_all (of_range range.now)) }
{
    match range {
        RangeR::All => Ok(held),
        RangeR::Cell(index) => gen_value(index, held, code),
        RangeR::Between(first, last) => {
            let held = gen_value(first, held, code)?;
            let next = gen_value(last, held, code)?;
            Ok(next)
        }
        RangeR::From(first) => gen_value(first, held, code),
        RangeR::UpTo(last) => gen_value(last, held, code),
    }
}

/// The range as instructions name it.
fn form_of_range(range: &RangeR) -> RangeForm
    ensures { result ≡ range_form range.now }
{
    match range {
        RangeR::All => RangeForm::All,
        RangeR::Cell(_) => RangeForm::Cell,
        RangeR::Between(..) => RangeForm::Between,
        RangeR::From(_) => RangeForm::From,
        RangeR::UpTo(_) => RangeForm::UpTo,
    }
}

/// The code of a section that is listed: the numbers of its range, its rank, and the section without its tests. The place
/// behind the values that it holds is the result.
fn gen_region(region: &RegionR, held: u32, code: &mut Vec<Instr>) -> Result<u32, Memory>
    ensures code { OnOk result (code.new.items ≡ code.old.items ++ region_code region.now held) }
    ensures next { IfOk result (λ next. next ≡ held + count_all (of_region region.now)) }
{
    let held = gen_range(&region.range, held, code)?;
    let next = gen_place(&region.place, held, code)?;
    let range = form_of_range(&region.range);
    let place = form_of(&region.place);
    put(
        code,
        Instr::Section(SectionForm::Region(region.object, range, place)),
    )?;
    Ok(next)
}

/// The code of any section that is listed. The place behind the values that it holds is the result.
pub(crate) fn gen_section(
    section: &SectionR,
    held: u32,
    code: &mut Vec<Instr>,
) -> Result<u32, Memory>
    ensures code { OnOk result (code.new.items ≡ code.old.items ++ section_code section.now held) }
    ensures next { IfOk result (λ next. next ≡ held + count_all (of_section section.now)) }
{
    match section {
        SectionR::Region(region) => gen_region(region, held, code),
        SectionR::Pointed(copointer, range) => {
            let next = gen_range(range, held, code)?;
            let form = form_of_range(range);
            put(code, Instr::Section(SectionForm::Pointed(*copointer, form)))?;
            Ok(next)
        }
    }
}

/// The code of a copointer that is aimed: the section, and its use, which makes the tests.
pub(crate) fn gen_aim(copointer: u32, region: &RegionR, code: &mut Vec<Instr>) -> Result<(), Memory>
    ensures { OnOk result (code.new.items ≡ code.old.items ++ aim_code copointer region.now) }
{
    gen_region(region, 0, code)?;
    put(code, Instr::Use(SectionUse::Aim(copointer)))
}
