//! The lines of subroutines and units.

ghost use Rattle.std.specs.Prelude.{◌≡◌, ◌≤◌, ◌++◌, ◌∷◌, [], OnOk, IfOk};
ghost use Rattle.std.specs.List.{flat_map};
ghost use Rattle.caf_lexer.specs.declared.token.What.TheVariants as what;
ghost use Rattle.caf_lexer.specs.declared.token.Word.TheVariants as word;
ghost use Rattle.caf_tree.specs.Said as spec;
ghost use Rattle.caf_tree.specs.Text.{line_text, unit_text};
ghost use Rattle.caf_printer.specs.Pieces.{sub_text};
ghost use Rattle.caf_printer.specs.Readable.{IsReadable, ReadsAs};

use crate::declaration::{add_dummies, print_declarations};
use crate::line::Line;
use crate::statement::{deeper, print_all, print_end, print_word};
use caf_base::{Memory, Text};
use caf_lexer::Word;
use caf_tree::stmt::Stmt;
use caf_tree::unit::{Decl, Sub, Unit};
use std::alloc::Global;

/// Prints declarations and statements.
fn print_part(
    declarations: &[Decl],
    body: &[Stmt],
    alloc: Global,
    indent: usize,
    text: &mut Vec<u8>,
) -> Result<(), Memory>
    requires { indent ≤ 40 }
    ensures { OnOk result (text.new.items ≡ text.old.items ++ flat_map line_text (spec.body_said indent declarations.now body.now)) }
{
    print_declarations(declarations, alloc, indent, text)?;
    print_all(body, alloc, indent, text)?;
    Ok(())
}

/// Prints the first line of a subroutine.
fn print_heading(
    name: &str,
    dummies: &[Text],
    alloc: Global,
    indent: usize,
    text: &mut Vec<u8>,
) -> Result<(), Memory>
    requires { indent ≤ 40 }
    ensures { OnOk result (text.new.items ≡ text.old.items ++ line_text (indent, what.Word word.Subroutine ∷ what.Name name.now ∷ spec.perhaps_list spec.of_name dummies.now)) }
{
    let mut line = Line::new(alloc);
    line.word(Word::Subroutine)?;
    line.name(name)?;
    add_dummies(dummies, &mut line)?;
    line.print(alloc, indent, text)
}

fn print_sub(sub: &Sub, alloc: Global, text: &mut Vec<u8>) -> Result<(), Memory>
    ensures { OnOk result (text.new.items ≡ text.old.items ++ sub_text sub.now) }
{
    let indent = deeper(0);
    let inner = deeper(indent);
    print_heading(
        sub.name.as_str(),
        sub.dummies.as_slice(),
        alloc,
        indent,
        text,
    )?;
    print_part(
        sub.declarations.as_slice(),
        sub.body.as_slice(),
        alloc,
        inner,
        text,
    )?;
    print_end(alloc, Word::Subroutine, indent, text)?;
    Ok(())
}

fn print_each(subs: &[Sub], alloc: Global, text: &mut Vec<u8>) -> Result<(), Memory>
    ensures { OnOk result (text.new.items ≡ text.old.items ++ flat_map sub_text subs.now) }
{
    for sub in subs {
        print_sub(sub, alloc, text)?;
    }
    Ok(())
}

/// Prints the subroutines behind a line of `contains`, if there are any.
fn print_subs(subs: &[Sub], alloc: Global, text: &mut Vec<u8>) -> Result<(), Memory>
    ensures { OnOk result (text.new.items ≡ text.old.items ++ flat_map line_text (spec.subs_said subs.now)) }
{
    match subs {
        [] => Ok(()),
        [_, ..] => {
            print_word(alloc, Word::Contains, 0, text)?;
            print_each(subs, alloc, text)?;
            Ok(())
        }
    }
}

/// Prints the first line of a program.
fn print_name(name: &str, alloc: Global, text: &mut Vec<u8>) -> Result<(), Memory>
    ensures { OnOk result (text.new.items ≡ text.old.items ++ line_text (0, what.Word word.Program ∷ spec.of_name name.now)) }
{
    let mut line = Line::new(alloc);
    line.word(Word::Program)?;
    line.name(name)?;
    line.print(alloc, 0, text)
}

/// Prints the lines of a unit.
fn print_lines(unit: &Unit, alloc: Global, text: &mut Vec<u8>) -> Result<(), Memory>
    ensures { OnOk result (text.new.items ≡ text.old.items ++ unit_text unit.now) }
{
    print_name(unit.name.as_str(), alloc, text)?;
    print_part(
        unit.declarations.as_slice(),
        unit.body.as_slice(),
        alloc,
        deeper(0),
        text,
    )?;
    print_subs(unit.subs.as_slice(), alloc, text)?;
    print_end(alloc, Word::Program, 0, text)?;
    Ok(())
}

/// The text of a unit: one statement a line, with one blank between tokens, two blanks of indent a level and at most 40.
/// A line is broken by ` &` before a token that would carry it past 130 bytes, and the rest begins in the first column.
/// Texts stand between the quotes that need fewer doublings, and between `'` where both need as many.
///
/// The text of a unit that was read is read as the same unit again, but for its lines.
#[tactic(auto, using(crate::proofs::Again::read_again))]
pub fn print_unit(alloc: Global, unit: &Unit) -> Result<Vec<u8>, Memory>
    ensures text { IfOk result (λ text. text.items ≡ unit_text unit.now) }
    ensures again { IfOk result (λ text. IsReadable unit.now → ReadsAs text.items unit.now) }
{
    let mut text = Vec::new(alloc);
    print_lines(unit, alloc, &mut text)?;
    Ok(text)
}
