ghost use Rattle.std.specs.Prelude.{◌≡◌, ◌∷◌, ◌++◌, [], codes, decimal, flat_map, map, IfOk, OnOk};
ghost use Rattle.std.specs.Fmt.{signed_decimal};
ghost use Rattle.caf_code.specs.Listing.{
  arithmetic_word,
  bounds_text,
  cell_word,
  down_text,
  dummies_word,
  dummy_letter,
  instr_line,
  instr_text,
  kind_text,
  listing_text,
  logical_word,
  named,
  numbered,
  object_line,
  place_text,
  query_text,
  quoted_byte,
  range_text,
  relation_word,
  role_text,
  share_text,
  sub_line,
  team_text,
  text_line,
};

use crate::{
    Arithmetic, CellUse, Code, ElementForm, EventUse, Instr, Listing, Logical, OutForm, PlaceForm,
    Printed, RangeForm, Reach, Relation, Role, SectionForm, SectionUse, SubCode, TeamName,
    TeamQuery,
};
use caf_base::{Down, Kind, Memory, Object, Text};
use itoa::{Buffer, Integer};
use std::alloc::Global;

/// The listing of a code, as text.
pub fn print_listing(alloc: Global, code: &Code) -> Result<Vec<u8>, Memory>
    ensures { IfOk result (λ text. text.items ≡ listing_text code.now) }
{
    text_of(alloc, code.listing())
}

/// The text of any listing, whether or not it keeps the rules of a code.
pub fn text_of(alloc: Global, listing: &Listing) -> Result<Vec<u8>, Memory>
    ensures { IfOk result (λ text. text.items ≡ listing_text listing.now) }
{
    let mut text = Vec::from_slice(alloc, b"caf code 3\n")?;
    push_objects(&mut text, listing.objects.as_slice())?;
    push_subs(&mut text, listing.subs.as_slice())?;
    push_texts(&mut text, listing.texts.as_slice())?;
    push_instrs(&mut text, listing.instrs.as_slice())?;
    Ok(text)
}

fn push_objects(text: &mut Vec<u8>, objects: &[Object]) -> Result<(), Memory>
    ensures { OnOk result (text.new.items ≡ text.old.items ++ numbered object_line 0 objects.now) }
{
    for (place, object) in objects.iter().enumerate() {
        push_object(text, place, object)?;
    }
    Ok(())
}

fn push_subs(text: &mut Vec<u8>, subs: &[SubCode]) -> Result<(), Memory>
    ensures { OnOk result (text.new.items ≡ text.old.items ++ numbered sub_line 0 subs.now) }
{
    for (place, sub) in subs.iter().enumerate() {
        push_sub(text, place, sub)?;
    }
    Ok(())
}

fn push_texts(text: &mut Vec<u8>, texts: &[Text]) -> Result<(), Memory>
    ensures { OnOk result (text.new.items ≡ text.old.items ++ numbered text_line 0 texts.now) }
{
    for (place, one) in texts.iter().enumerate() {
        push_text(text, place, one.as_str())?;
    }
    Ok(())
}

fn push_instrs(text: &mut Vec<u8>, instrs: &[Instr]) -> Result<(), Memory>
    ensures { OnOk result (text.new.items ≡ text.old.items ++ numbered instr_line 0 instrs.now) }
{
    for (address, instr) in instrs.iter().enumerate() {
        push_instr_line(text, address, *instr)?;
    }
    Ok(())
}

fn push_number<I: Integer>(text: &mut Vec<u8>, number: I) -> Result<(), Memory>
    ensures { OnOk result (text.new.items ≡ text.old.items ++ I.text number) }
{
    text.extend_from_slice(Buffer::new().format(number).as_bytes())?;
    Ok(())
}

fn push_bytes(text: &mut Vec<u8>, bytes: &[u8]) -> Result<(), Memory>
    ensures { OnOk result (text.new.items ≡ text.old.items ++ bytes.now) }
{
    text.extend_from_slice(bytes)?;
    Ok(())
}

/// A number behind a blank.
fn push_operand<I: Integer>(text: &mut Vec<u8>, number: I) -> Result<(), Memory>
    ensures { OnOk result (text.new.items ≡ text.old.items ++ 32 ∷ I.text number) }
{
    text.push(b' ')?;
    push_number(text, number)
}

/// A word, and a number behind it.
fn push_named(text: &mut Vec<u8>, word: &[u8], number: u32) -> Result<(), Memory>
    ensures { OnOk result (text.new.items ≡ text.old.items ++ named word.now number) }
{
    push_bytes(text, word)?;
    push_operand(text, number)
}

/// The first words of a line that isn't an instruction's.
fn push_start(text: &mut Vec<u8>, word: &[u8], place: usize) -> Result<(), Memory>
    ensures { OnOk result (text.new.items ≡ text.old.items ++ named word.now place) }
{
    push_bytes(text, word)?;
    push_operand(text, place)
}

fn push_object(text: &mut Vec<u8>, place: usize, object: &Object) -> Result<(), Memory>
    ensures { OnOk result (text.new.items ≡ text.old.items ++ object_line place object.now) }
{
    push_start(text, b"object", place)?;
    push_bytes(text, kind_bytes(object.kind))?;
    push_bounds(text, object)?;
    push_bytes(text, share_bytes(object.shared))?;
    push_bytes(text, b"\n")
}

fn push_bounds(text: &mut Vec<u8>, object: &Object) -> Result<(), Memory>
    ensures { OnOk result (text.new.items ≡ text.old.items ++ bounds_text object.now) }
{
    push_operand(text, object.lower)?;
    push_operand(text, object.extent)
}

fn push_sub(text: &mut Vec<u8>, place: usize, sub: &SubCode) -> Result<(), Memory>
    ensures { OnOk result (text.new.items ≡ text.old.items ++ sub_line place sub.now) }
{
    push_start(text, b"sub", place)?;
    push_operand(text, sub.address)?;
    push_dummies(text, sub.dummies.as_slice())?;
    push_operand(text, sub.locals)?;
    push_bytes(text, b"\n")
}

fn push_dummies(text: &mut Vec<u8>, dummies: &[bool]) -> Result<(), Memory>
    ensures { OnOk result (text.new.items ≡ text.old.items ++ 32 ∷ dummies_word dummies.now) }
{
    if dummies.is_empty() {
        return push_bytes(text, b" -");
    }
    push_bytes(text, b" ")?;
    push_letters(text, dummies)
}

fn push_letters(text: &mut Vec<u8>, dummies: &[bool]) -> Result<(), Memory>
    ensures { OnOk result (text.new.items ≡ text.old.items ++ map dummy_letter dummies.now) }
{
    for copied in dummies {
        text.push(letter_of(*copied))?;
    }
    Ok(())
}

fn letter_of(copied: bool) -> u8
    ensures { result ≡ dummy_letter copied }
{
    if copied { b'o' } else { b'i' }
}

fn push_text(text: &mut Vec<u8>, place: usize, one: &str) -> Result<(), Memory>
    ensures { OnOk result (text.new.items ≡ text.old.items ++ text_line place one.now) }
{
    push_start(text, b"text", place)?;
    push_bytes(text, b" '")?;
    push_quoted(text, one.as_bytes())?;
    push_bytes(text, b"'\n")
}

fn push_quoted(text: &mut Vec<u8>, bytes: &[u8]) -> Result<(), Memory>
    ensures { OnOk result (text.new.items ≡ text.old.items ++ flat_map quoted_byte bytes.now) }
{
    for byte in bytes {
        push_quoted_byte(text, *byte)?;
    }
    Ok(())
}

fn push_quoted_byte(text: &mut Vec<u8>, byte: u8) -> Result<(), Memory>
    ensures { OnOk result (text.new.items ≡ text.old.items ++ quoted_byte byte) }
{
    if byte == b'\'' {
        push_bytes(text, b"''")
    } else {
        text.push(byte)?;
        Ok(())
    }
}

fn push_instr_line(text: &mut Vec<u8>, address: usize, instr: Instr) -> Result<(), Memory>
    ensures { OnOk result (text.new.items ≡ text.old.items ++ instr_line address instr) }
{
    push_number(text, address)?;
    push_bytes(text, b": ")?;
    push_instr(text, instr)?;
    push_bytes(text, b"\n")
}

fn push_instr(text: &mut Vec<u8>, instr: Instr) -> Result<(), Memory>
    ensures { OnOk result (text.new.items ≡ text.old.items ++ instr_text instr) }
{
    match instr {
        Instr::Push(number) => push_push(text, number),
        Instr::Load(Reach::Scalar, object) => push_named(text, b"load", object),
        Instr::Load(Reach::Element, object) => push_named(text, b"loadx", object),
        Instr::Store(Reach::Scalar, object) => push_named(text, b"store", object),
        Instr::Store(Reach::Element, object) => push_named(text, b"storex", object),
        Instr::Cell(purpose, cell) => push_named(text, cell_bytes(purpose), cell),
        Instr::Held(place) => push_named(text, b"held", place),
        Instr::Arithmetic(word) => push_bytes(text, arithmetic_bytes(word)),
        Instr::Relation(word) => push_bytes(text, relation_bytes(word)),
        Instr::Logical(word) => push_bytes(text, logical_bytes(word)),
        Instr::Team(query, team) => push_query(text, query, team),
        Instr::Go(address) => push_named(text, b"go", address),
        Instr::Next => push_bytes(text, b"next"),
        Instr::Test(address) => push_named(text, b"test", address),
        Instr::Loop => push_bytes(text, b"loop"),
        Instr::Enter(address) => push_named(text, b"enter", address),
        Instr::StepBy => push_bytes(text, b"stepby"),
        Instr::Again(address) => push_named(text, b"again", address),
        Instr::Ask(ElementForm::Coindexed(object, place)) => push_placed(
            text, b"ask", object, place,
        ),
        Instr::Ask(ElementForm::Pointed(copointer)) => push_named(text, b"askp", copointer),
        Instr::Put(ElementForm::Coindexed(object, place)) => push_placed(
            text, b"put", object, place,
        ),
        Instr::Put(ElementForm::Pointed(copointer)) => push_named(text, b"putp", copointer),
        Instr::Section(SectionForm::Region(object, range, place)) => push_region(
            text, object, range, place,
        ),
        Instr::Section(SectionForm::Pointed(copointer, range)) => {
            push_named(text, b"sectp", copointer)?;
            push_bytes(text, range_bytes(range))
        }
        Instr::EventAt(object, place, role) => {
            push_placed(text, b"eventat", object, place)?;
            push_bytes(text, role_bytes(role))
        }
        Instr::Use(SectionUse::Aim(copointer)) => push_named(text, b"aim", copointer),
        Instr::Use(SectionUse::Copy) => push_bytes(text, b"copy"),
        Instr::Event(EventUse::Notify(object, place)) => push_placed(
            text, b"notify", object, place,
        ),
        Instr::Event(EventUse::Wait(object)) => push_named(text, b"wait", object),
        Instr::Cofence(class) => push_cofence(text, class),
        Instr::Spawn(sub, place) => push_placed(text, b"spawn", sub, place),
        Instr::Finish(TeamName::World) => push_bytes(text, b"finish"),
        Instr::Finish(TeamName::Object(object)) => push_named(text, b"finisht", object),
        Instr::Close => push_bytes(text, b"close"),
        Instr::Split(team, object) => push_split(text, team, object),
        Instr::Out(OutForm::Scalar(object)) => push_named(text, b"outs", object),
        Instr::Out(OutForm::Element(object)) => push_named(text, b"outx", object),
        Instr::Out(OutForm::Local(cell)) => push_named(text, b"outl", cell),
        Instr::Call(sub) => push_named(text, b"call", sub),
        Instr::Ret => push_bytes(text, b"ret"),
        Instr::Print(Printed::Number) => push_bytes(text, b"printn"),
        Instr::Print(Printed::Logical) => push_bytes(text, b"printl"),
        Instr::Print(Printed::Text(place)) => push_named(text, b"printt", place),
        Instr::Line => push_bytes(text, b"line"),
        Instr::Halt => push_bytes(text, b"halt"),
    }
}

fn push_push(text: &mut Vec<u8>, number: i64) -> Result<(), Memory>
    ensures { OnOk result (text.new.items ≡ text.old.items ++ (codes "push " ++ signed_decimal number)) }
{
    push_bytes(text, b"push ")?;
    push_number(text, number)
}

fn push_query(text: &mut Vec<u8>, query: TeamQuery, team: TeamName) -> Result<(), Memory>
    ensures { OnOk result (text.new.items ≡ text.old.items ++ query_text query team) }
{
    match (query, team) {
        (TeamQuery::Rank, TeamName::World) => push_bytes(text, b"rank"),
        (TeamQuery::Size, TeamName::World) => push_bytes(text, b"size"),
        (TeamQuery::Rank, TeamName::Object(object)) => push_named(text, b"rankof", object),
        (TeamQuery::Size, TeamName::Object(object)) => push_named(text, b"sizeof", object),
    }
}

/// A word, a number and a place.
fn push_placed(text: &mut Vec<u8>, word: &[u8], number: u32, place: PlaceForm) -> Result<(), Memory>
    ensures { OnOk result (text.new.items ≡ text.old.items ++ (named word.now number ++ place_text place)) }
{
    push_named(text, word, number)?;
    push_place(text, place)
}

fn push_place(text: &mut Vec<u8>, place: PlaceForm) -> Result<(), Memory>
    ensures { OnOk result (text.new.items ≡ text.old.items ++ place_text place) }
{
    match place {
        PlaceForm::Own => push_bytes(text, b" own"),
        PlaceForm::World => push_bytes(text, b" world"),
        PlaceForm::Of(object) => push_named(text, b" team", object),
    }
}

fn push_region(
    text: &mut Vec<u8>,
    object: u32,
    range: RangeForm,
    place: PlaceForm,
) -> Result<(), Memory>
    ensures { OnOk result (text.new.items ≡ text.old.items ++ (named (codes "sect") object ++ range_text range ++ place_text place)) }
{
    push_named(text, b"sect", object)?;
    push_bytes(text, range_bytes(range))?;
    push_place(text, place)
}

fn push_cofence(text: &mut Vec<u8>, class: Down) -> Result<(), Memory>
    ensures { OnOk result (text.new.items ≡ text.old.items ++ (codes "cofence" ++ down_text class)) }
{
    push_bytes(text, b"cofence")?;
    push_bytes(text, down_bytes(class))
}

fn push_split(text: &mut Vec<u8>, team: TeamName, object: u32) -> Result<(), Memory>
    ensures { OnOk result (text.new.items ≡ text.old.items ++ (codes "split" ++ team_text team ++ 32 ∷ decimal object)) }
{
    push_bytes(text, b"split")?;
    push_team(text, team)?;
    push_operand(text, object)
}

fn push_team(text: &mut Vec<u8>, team: TeamName) -> Result<(), Memory>
    ensures { OnOk result (text.new.items ≡ text.old.items ++ team_text team) }
{
    match team {
        TeamName::World => push_bytes(text, b" world"),
        TeamName::Object(object) => push_named(text, b" team", object),
    }
}

fn arithmetic_bytes(word: Arithmetic) -> &'static [u8]
    ensures { result.now ≡ arithmetic_word word }
{
    match word {
        Arithmetic::Negate => b"neg",
        Arithmetic::Add => b"add",
        Arithmetic::Subtract => b"sub",
        Arithmetic::Multiply => b"mul",
        Arithmetic::Divide => b"div",
        Arithmetic::Modulo => b"mod",
        Arithmetic::Absolute => b"abs",
        Arithmetic::Minimum => b"min",
        Arithmetic::Maximum => b"max",
    }
}

fn relation_bytes(word: Relation) -> &'static [u8]
    ensures { result.now ≡ relation_word word }
{
    match word {
        Relation::Equal => b"eq",
        Relation::NotEqual => b"ne",
        Relation::Less => b"lt",
        Relation::LessEqual => b"le",
        Relation::Greater => b"gt",
        Relation::GreaterEqual => b"ge",
    }
}

fn logical_bytes(word: Logical) -> &'static [u8]
    ensures { result.now ≡ logical_word word }
{
    match word {
        Logical::Not => b"not",
        Logical::And => b"and",
        Logical::Or => b"or",
        Logical::Equivalent => b"eqv",
        Logical::NotEquivalent => b"neqv",
    }
}

fn cell_bytes(purpose: CellUse) -> &'static [u8]
    ensures { result.now ≡ cell_word purpose }
{
    match purpose {
        CellUse::Get => b"local",
        CellUse::Set => b"setlocal",
    }
}

fn range_bytes(range: RangeForm) -> &'static [u8]
    ensures { result.now ≡ range_text range }
{
    match range {
        RangeForm::All => b" all",
        RangeForm::Cell => b" cell",
        RangeForm::Between => b" range",
        RangeForm::From => b" from",
        RangeForm::UpTo => b" upto",
    }
}

fn role_bytes(role: Role) -> &'static [u8]
    ensures { result.now ≡ role_text role }
{
    match role {
        Role::Pre => b" pre",
        Role::Srce => b" srce",
        Role::Deste => b" deste",
        Role::Done => b" done",
    }
}

fn down_bytes(class: Down) -> &'static [u8]
    ensures { result.now ≡ down_text class }
{
    match class {
        Down::Nothing => b" none",
        Down::Read => b" read",
        Down::Write => b" write",
        Down::Any => b" any",
    }
}

fn kind_bytes(kind: Kind) -> &'static [u8]
    ensures { result.now ≡ kind_text kind }
{
    match kind {
        Kind::Integer => b" integer",
        Kind::Logical => b" logical",
        Kind::Event => b" event",
        Kind::Team => b" team",
        Kind::CoInteger => b" cointeger",
        Kind::CoLogical => b" cological",
    }
}

fn share_bytes(shared: bool) -> &'static [u8]
    ensures { result.now ≡ share_text shared }
{
    if shared { b" all" } else { b" own" }
}
