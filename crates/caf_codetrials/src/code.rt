ghost use Rattle.std.specs.Prelude.{◌≡◌, ◌∷◌, [], codes, length, slice_get, Some, IfOk};
ghost use Rattle.caf_base.specs.declared.effect.Effect.TheVariants as effect;
ghost use Rattle.caf_base.specs.declared.trap.Trap.TheVariants as trap;
ghost use Rattle.caf_codetrials.specs.Examples.{alone, calls_code, loops_code, sums_code};

use caf_base::{Down, Kind, Memory, Object, Sequence, Text};
use caf_code::{
    Arithmetic, CellUse, Code, ElementForm, EventUse, Instr, Listing, Logical, OutForm, PlaceForm,
    Printed, RangeForm, Reach, Relation, Role, SectionForm, SectionUse, SubCode, TeamName,
    TeamQuery, print_listing, tables_show_rules, text_of,
};
use std::alloc::Global;
use std::test::Fail;

fn object(kind: Kind, lower: i64, extent: u32, shared: bool) -> Object {
    Object {
        kind,
        lower,
        extent,
        shared,
    }
}

fn objects(alloc: Global) -> Result<Sequence<Object>, Fail> {
    Ok(Sequence::from_slice(
        alloc,
        &[
            object(Kind::Integer, 1, 1, false),
            object(Kind::Logical, -3, 12, true),
            object(Kind::Event, 0, 4, true),
            object(Kind::Team, 1, 1, false),
            object(Kind::CoInteger, 1, 1, false),
            object(Kind::CoLogical, 1, 1, false),
            object(Kind::Integer, -9223372036854775808, 0, true),
        ],
    )?)
}

fn subs(alloc: Global) -> Result<Sequence<SubCode>, Fail> {
    let mut subs = Sequence::new(alloc);
    subs.push(SubCode {
        address: 7,
        dummies: Sequence::new(alloc),
        locals: 0,
    })?;
    subs.push(SubCode {
        address: 4294967295,
        dummies: Sequence::from_slice(alloc, &[false, true, true])?,
        locals: 61,
    })?;
    Ok(subs)
}

fn texts(alloc: Global) -> Result<Sequence<Text>, Fail> {
    let mut texts = Sequence::new(alloc);
    texts.push(Text::copy_of(alloc, "")?)?;
    texts.push(Text::copy_of(alloc, "it's 'so'")?)?;
    Ok(texts)
}

/// Each row of the instructions with each of its words, and each kind of operand.
fn instrs(alloc: Global) -> Result<Sequence<Instr>, Fail> {
    Ok(Sequence::from_slice(
        alloc,
        &[
            Instr::Push(-9223372036854775808),
            Instr::Load(Reach::Scalar, 0),
            Instr::Load(Reach::Element, 1),
            Instr::Store(Reach::Scalar, 0),
            Instr::Store(Reach::Element, 1),
            Instr::Cell(CellUse::Get, 2),
            Instr::Cell(CellUse::Set, 3),
            Instr::Held(4),
            Instr::Arithmetic(Arithmetic::Negate),
            Instr::Arithmetic(Arithmetic::Add),
            Instr::Arithmetic(Arithmetic::Subtract),
            Instr::Arithmetic(Arithmetic::Multiply),
            Instr::Arithmetic(Arithmetic::Divide),
            Instr::Arithmetic(Arithmetic::Modulo),
            Instr::Arithmetic(Arithmetic::Absolute),
            Instr::Arithmetic(Arithmetic::Minimum),
            Instr::Arithmetic(Arithmetic::Maximum),
            Instr::Relation(Relation::Equal),
            Instr::Relation(Relation::NotEqual),
            Instr::Relation(Relation::Less),
            Instr::Relation(Relation::LessEqual),
            Instr::Relation(Relation::Greater),
            Instr::Relation(Relation::GreaterEqual),
            Instr::Logical(Logical::Not),
            Instr::Logical(Logical::And),
            Instr::Logical(Logical::Or),
            Instr::Logical(Logical::Equivalent),
            Instr::Logical(Logical::NotEquivalent),
            Instr::Team(TeamQuery::Rank, TeamName::World),
            Instr::Team(TeamQuery::Size, TeamName::World),
            Instr::Team(TeamQuery::Rank, TeamName::Object(3)),
            Instr::Team(TeamQuery::Size, TeamName::Object(3)),
            Instr::Go(5),
            Instr::Next,
            Instr::Test(6),
            Instr::Loop,
            Instr::Enter(7),
            Instr::StepBy,
            Instr::Again(8),
            Instr::Ask(ElementForm::Coindexed(1, PlaceForm::Own)),
            Instr::Ask(ElementForm::Pointed(4)),
            Instr::Put(ElementForm::Coindexed(1, PlaceForm::World)),
            Instr::Put(ElementForm::Pointed(5)),
            Instr::Section(SectionForm::Region(1, RangeForm::All, PlaceForm::Of(3))),
            Instr::Section(SectionForm::Region(1, RangeForm::Cell, PlaceForm::Own)),
            Instr::Section(SectionForm::Pointed(4, RangeForm::Between)),
            Instr::Section(SectionForm::Pointed(4, RangeForm::From)),
            Instr::Section(SectionForm::Pointed(4, RangeForm::UpTo)),
            Instr::EventAt(2, PlaceForm::Own, Role::Pre),
            Instr::EventAt(2, PlaceForm::World, Role::Srce),
            Instr::EventAt(2, PlaceForm::Of(3), Role::Deste),
            Instr::EventAt(2, PlaceForm::Own, Role::Done),
            Instr::Use(SectionUse::Aim(5)),
            Instr::Use(SectionUse::Copy),
            Instr::Event(EventUse::Notify(2, PlaceForm::Of(3))),
            Instr::Event(EventUse::Wait(2)),
            Instr::Cofence(Down::Nothing),
            Instr::Cofence(Down::Read),
            Instr::Cofence(Down::Write),
            Instr::Cofence(Down::Any),
            Instr::Spawn(1, PlaceForm::World),
            Instr::Finish(TeamName::World),
            Instr::Finish(TeamName::Object(3)),
            Instr::Close,
            Instr::Split(TeamName::World, 3),
            Instr::Split(TeamName::Object(3), 3),
            Instr::Out(OutForm::Scalar(0)),
            Instr::Out(OutForm::Element(1)),
            Instr::Out(OutForm::Local(9)),
            Instr::Call(1),
            Instr::Ret,
            Instr::Print(Printed::Number),
            Instr::Print(Printed::Logical),
            Instr::Print(Printed::Text(1)),
            Instr::Line,
            Instr::Halt,
        ],
    )?)
}

#[test]
fn each_row_prints_as_the_format_says(rt: HostRuntime) -> Result<(), Fail> {
    let alloc = rt.alloc();
    let listing = Listing {
        objects: objects(alloc)?,
        subs: subs(alloc)?,
        texts: texts(alloc)?,
        instrs: instrs(alloc)?,
    };
    // Written by hand after the table of instructions and the form of a listing.
    let wanted = b"caf code 3\n\
        object 0 integer 1 1 own\nobject 1 logical -3 12 all\nobject 2 event 0 4 all\nobject 3 team 1 1 own\n\
        object 4 cointeger 1 1 own\nobject 5 cological 1 1 own\nobject 6 integer -9223372036854775808 0 all\n\
        sub 0 7 - 0\nsub 1 4294967295 ioo 61\ntext 0 ''\ntext 1 'it''s ''so'''\n\
        0: push -9223372036854775808\n1: load 0\n2: loadx 1\n3: store 0\n4: storex 1\n5: local 2\n6: setlocal 3\n\
        7: held 4\n8: neg\n9: add\n10: sub\n11: mul\n12: div\n13: mod\n14: abs\n15: min\n16: max\n17: eq\n18: ne\n\
        19: lt\n20: le\n21: gt\n22: ge\n23: not\n24: and\n25: or\n26: eqv\n27: neqv\n28: rank\n29: size\n\
        30: rankof 3\n31: sizeof 3\n32: go 5\n33: next\n34: test 6\n35: loop\n36: enter 7\n37: stepby\n38: again 8\n\
        39: ask 1 own\n40: askp 4\n41: put 1 world\n42: putp 5\n43: sect 1 all team 3\n44: sect 1 cell own\n\
        45: sectp 4 range\n46: sectp 4 from\n47: sectp 4 upto\n48: eventat 2 own pre\n49: eventat 2 world srce\n\
        50: eventat 2 team 3 deste\n51: eventat 2 own done\n52: aim 5\n53: copy\n54: notify 2 team 3\n55: wait 2\n\
        56: cofence none\n57: cofence read\n58: cofence write\n59: cofence any\n60: spawn 1 world\n61: finish\n\
        62: finisht 3\n63: close\n64: split world 3\n65: split team 3 3\n66: outs 0\n67: outx 1\n68: outl 9\n\
        69: call 1\n70: ret\n71: printn\n72: printl\n73: printt 1\n74: line\n75: halt\n";
    assert_eq!(rt; text_of(alloc, &listing)?.as_slice(), wanted.as_slice());
    Ok(())
}

/// The code of `print *, -7/2, mod(-7, 2), -2*3`.
fn sums(alloc: Global) -> Result<Code, Memory>
    ensures { IfOk result (λ code. code ≡ sums_code) }
{
    tables_show_rules();
    let instrs = Sequence::from_slice(
        alloc,
        &[
            Instr::Push(7),
            Instr::Push(2),
            Instr::Arithmetic(Arithmetic::Divide),
            Instr::Arithmetic(Arithmetic::Negate),
            Instr::Print(Printed::Number),
            Instr::Push(7),
            Instr::Arithmetic(Arithmetic::Negate),
            Instr::Push(2),
            Instr::Arithmetic(Arithmetic::Modulo),
            Instr::Print(Printed::Number),
            Instr::Push(2),
            Instr::Push(3),
            Instr::Arithmetic(Arithmetic::Multiply),
            Instr::Arithmetic(Arithmetic::Negate),
            Instr::Print(Printed::Number),
            Instr::Line,
            Instr::Close,
            Instr::Halt,
        ],
    )?;
    Ok(Code::of(Listing {
        objects: Sequence::new(alloc),
        subs: Sequence::new(alloc),
        texts: Sequence::new(alloc),
        instrs,
    }))
}

/// The code of a `do` from 5 to 1 that prints a text, `print *, i`, an empty `do` from 1 to 5 by 2, and `print *, i`.
fn loops(alloc: Global) -> Result<Code, Memory>
    ensures { IfOk result (λ code. code ≡ loops_code) }
{
    tables_show_rules();
    let count = Object {
        kind: Kind::Integer,
        lower: 1,
        extent: 1,
        shared: false,
    };
    let objects = Sequence::from_slice(alloc, &[count])?;
    let mut texts = Sequence::new(alloc);
    texts.push(Text::copy_of(alloc, "never")?)?;
    let instrs = Sequence::from_slice(
        alloc,
        &[
            Instr::Push(5),
            Instr::Push(1),
            Instr::Push(1),
            Instr::Loop,
            Instr::Store(Reach::Scalar, 0),
            Instr::Enter(13),
            Instr::Print(Printed::Text(0)),
            Instr::Line,
            Instr::Load(Reach::Scalar, 0),
            Instr::StepBy,
            Instr::Arithmetic(Arithmetic::Add),
            Instr::Store(Reach::Scalar, 0),
            Instr::Again(6),
            Instr::Load(Reach::Scalar, 0),
            Instr::Print(Printed::Number),
            Instr::Line,
            Instr::Push(1),
            Instr::Push(5),
            Instr::Push(2),
            Instr::Loop,
            Instr::Store(Reach::Scalar, 0),
            Instr::Enter(27),
            Instr::Load(Reach::Scalar, 0),
            Instr::StepBy,
            Instr::Arithmetic(Arithmetic::Add),
            Instr::Store(Reach::Scalar, 0),
            Instr::Again(22),
            Instr::Load(Reach::Scalar, 0),
            Instr::Print(Printed::Number),
            Instr::Line,
            Instr::Close,
            Instr::Halt,
        ],
    )?;
    Ok(Code::of(Listing {
        objects,
        subs: Sequence::new(alloc),
        texts,
        instrs,
    }))
}

/// The code of a subroutine that prints its dummy and calls itself with one more, called with 1.
fn calls(alloc: Global) -> Result<Code, Memory>
    ensures { IfOk result (λ code. code ≡ calls_code) }
{
    tables_show_rules();
    let mut subs = Sequence::new(alloc);
    subs.push(SubCode {
        address: 4,
        dummies: Sequence::from_slice(alloc, &[false])?,
        locals: 0,
    })?;
    let instrs = Sequence::from_slice(
        alloc,
        &[
            Instr::Push(1),
            Instr::Call(0),
            Instr::Close,
            Instr::Halt,
            Instr::Cell(CellUse::Get, 0),
            Instr::Print(Printed::Number),
            Instr::Line,
            Instr::Cell(CellUse::Get, 0),
            Instr::Push(1),
            Instr::Arithmetic(Arithmetic::Add),
            Instr::Call(0),
            Instr::Ret,
        ],
    )?;
    Ok(Code::of(Listing {
        objects: Sequence::new(alloc),
        subs,
        texts: Sequence::new(alloc),
        instrs,
    }))
}

/// By what is written of each instruction, the three codes print what their programs should: sums truncate towards
/// zero; a loop without iterations leaves its first number, and one of three leaves the number behind the last; a
/// subroutine that calls itself without end prints 200 lines, and traps at the 201st call.
#[tactic(auto, using(crate::proofs::Runs::sums_print, crate::proofs::Runs::loops_print, crate::proofs::Runs::calls_print, crate::proofs::Runs::calls_end, crate::proofs::Runs::calls_trap,))]
fn the_three_codes_print_as_they_should()
    ensures sums { (alone 1 sums_code).memory.lines ≡ codes "-3 -1 -6" ∷ [] }
    ensures loops { (alone 7 loops_code).memory.lines ≡ codes "5" ∷ codes "7" ∷ [] }
    ensures calls { length (alone 401 calls_code).memory.lines ≡ 200 }
    ensures last { slice_get (alone 401 calls_code).memory.lines 199 ≡ Some (codes "200") }
    ensures trap { (alone 401 calls_code).effect ≡ effect.Traps trap.Depth }
{}

#[test]
fn codes_of_small_programs_keep_the_rules(rt: HostRuntime) -> Result<(), Fail> {
    let alloc = rt.alloc();
    the_three_codes_print_as_they_should();
    let wanted =
        b"caf code 3\nsub 0 4 i 0\n0: push 1\n1: call 0\n2: close\n3: halt\n4: local 0\n5: printn\n\
        6: line\n7: local 0\n8: push 1\n9: add\n10: call 0\n11: ret\n";
    assert_eq!(rt;
        print_listing(alloc, &calls(alloc)?)?.as_slice(),
        wanted.as_slice()
    );
    assert_eq!(rt; sums(alloc)?.listing().instrs.len(), 18);
    assert_eq!(rt; loops(alloc)?.listing().instrs.len(), 32);
    Ok(())
}
