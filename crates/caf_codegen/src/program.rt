ghost use Rattle.std.specs.Prelude.{◌≡◌, ◌+◌, ◌++◌, [], ◌∷◌, length, map, not, IfOk, IsTrue, OnOk};
ghost use Rattle.caf_program.specs.Ships.{is_in};
ghost use Rattle.caf_codegen.specs.Compiled.{Compiled, copied_dummies};
ghost use Rattle.caf_codegen.specs.ProgramCode.{main_code, program_code, sub_code, sub_entries, subs_code, subs_texts};
ghost use Rattle.caf_codegen.specs.StmtCode.{codes, texts_in};

use crate::emit::{place, put};
use crate::law::made_codes_do_what_programs_say;
use crate::statement::gen_block;
use caf_base::{Memory, Sequence, Text};
use caf_code::{Code, Instr, Listing, SubCode};
use caf_program::{Accepted, DummyR, Intent, Program, StmtR, SubR};
use std::alloc::Global;

/// The code of a program. Each step of its tasks, from one to the next, does what the step over the program's trees does.
/// A program whose addresses or texts are too many for an instruction to name is refused as if there were no memory.
pub fn compile(alloc: Global, a: &Accepted) -> Result<Code, Memory>
    ensures { IfOk result (λ code. Compiled a.now code) }
{
    let listing = gen_program(alloc, a.program())?;
    made_codes_do_what_programs_say();
    Ok(Code::of(listing))
}

fn gen_program(alloc: Global, program: &Program) -> Result<Listing, Memory>
    ensures { IfOk result (λ listing. listing ≡ program_code program.now) }
{
    let objects = Sequence::from_slice(alloc, program.objects.as_slice())?;
    let mut code = Vec::new(alloc);
    let mut texts = Sequence::new(alloc);
    gen_main(alloc, program.body.as_slice(), &mut code, &mut texts)?;
    let subs = gen_subs(alloc, program.subs.as_slice(), &mut code, &mut texts)?;
    Ok(Listing {
        objects,
        subs,
        texts,
        instrs: Sequence::from_vec(code),
    })
}

/// The main program, and the end of its finish.
fn gen_main(
    alloc: Global,
    body: &[StmtR],
    code: &mut Vec<Instr>,
    texts: &mut Sequence<Text>,
) -> Result<(), Memory>
    requires code { code.old.items ≡ [] }
    requires texts { texts.old ≡ [] }
    ensures code { OnOk result (code.new.items ≡ main_code body.now) }
    ensures texts { OnOk result (texts.new ≡ texts_in (codes body.now)) }
{
    gen_block(alloc, body, code, texts)?;
    put(code, Instr::Close)?;
    put(code, Instr::Halt)
}

/// The subroutines one after another, and where each begins.
fn gen_subs(
    alloc: Global,
    subs: &[SubR],
    code: &mut Vec<Instr>,
    texts: &mut Sequence<Text>,
) -> Result<Sequence<SubCode>, Memory>
    ensures entries { IfOk result (λ entries. entries ≡ sub_entries subs.now (length code.old.items)) }
    ensures code { OnOk result (code.new.items ≡ code.old.items ++ subs_code subs.now (length code.old.items) (length texts.old)) }
    ensures texts { OnOk result (texts.new ≡ texts.old ++ subs_texts subs.now) }
{
    let mut entries = Sequence::new(alloc);
    for sub in subs {
        let entry = gen_sub(alloc, sub, code, texts)?;
        entries.push(entry)?;
    }
    Ok(entries)
}

fn gen_sub(
    alloc: Global,
    sub: &SubR,
    code: &mut Vec<Instr>,
    texts: &mut Sequence<Text>,
) -> Result<SubCode, Memory>
    ensures entry { IfOk result (λ entry. entry ≡ record { address = length code.old.items; dummies = copied_dummies sub.now; locals = length sub.now.locals }) }
    ensures code { OnOk result (code.new.items ≡ code.old.items ++ sub_code sub.now (length code.old.items) (length texts.old)) }
    ensures texts { OnOk result (texts.new ≡ texts.old ++ texts_in (codes sub.now.body)) }
{
    let address = place(code.len())?;
    gen_block(alloc, sub.body.as_slice(), code, texts)?;
    put(code, Instr::Ret)?;
    let dummies = copied(alloc, sub.dummies.as_slice())?;
    let locals = place(sub.locals.len())?;
    Ok(SubCode {
        address,
        dummies,
        locals,
    })
}

/// For each dummy whether it is copied out.
fn copied(alloc: Global, dummies: &[DummyR]) -> Result<Sequence<bool>, Memory>
    ensures { IfOk result (λ copied. copied ≡ map (λ d. not (is_in d.intent)) dummies.now) }
{
    let mut copied = Sequence::new(alloc);
    for dummy in dummies {
        copied.push(is_copied(dummy.intent))?;
    }
    Ok(copied)
}

fn is_copied(intent: Intent) -> bool
    ensures { result ≡ not (is_in intent) }
{
    match intent {
        Intent::In => false,
        Intent::InOut => true,
    }
}
