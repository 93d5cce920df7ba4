ghost use Rattle.std.specs.Prelude.{◌≡◌, [], Some, Ok, Err, IfOk, OnOk, OnErr, MatchResult, length, slice_get, slice_index_or, if◌then◌else◌};
ghost use Rattle.std.specs.Option.{option_copied};
ghost use Rattle.caf_base.specs.declared.trap.Trap.{Trap};
ghost use Rattle.caf_base.specs.Element.{element_at, element_of, has_index as has, offset_of as offset};
ghost use Rattle.caf_base.specs.Line.{has_room, with_line};
ghost use Rattle.caf_base.specs.Orders.{with_copointer, with_team};
ghost use Rattle.caf_base.specs.Places.{copointer_at, team_at, with_posts, written};
ghost use Rattle.caf_base.specs.Sections.{section_values, with_section};
ghost use Rattle.caf_base.specs.Start.{start_memory};
ghost use Rattle.caf_memory.specs.Bounds.{HasCells, index_trap, own_section, posts_of, section_trap, values_in};
ghost use Rattle.caf_memory.specs.Faults.{LineFaults, SectionFaults};
ghost use Rattle.caf_memory.specs.Sized.{HasRow, IsSized};

use crate::bounds::{has_index, object_at, offset_of, test_section};
use crate::rows::{number_at, part, posts_in, posts_row, put, put_all, put_posts, row_of};
use crate::start::{first_cells, first_copointers, first_posts, first_teams};
use crate::{LineFault, Memory, SectionFault};
use caf_base::{Object, Section, Sequence, Team, Text, Trap};
use std::alloc::Global;
use std::marker::Model;

/// The memory of one image.
#[derive(Drop)]
pub struct ImageMemory {
    image: u32,
    images: u32,
    objects: Sequence<Object>,
    // One entry for each object in each of these, empty or unset for an object of another kind.
    cells: Vec<Sequence<i64>>,
    posts: Vec<Sequence<u32>>,
    teams: Vec<Option<Team>>,
    copointers: Vec<Option<Section>>,
    lines: Vec<Text>,
    // The bytes of the lines with their ends.
    printed: usize,
}

impl Model for ImageMemory {
    ghost use Rattle.caf_base.specs.ImageMemory.{ImageMemory};

    ghost Value = { ImageMemory };

    ghost use Rattle.caf_memory.specs.Kept.{seen, IsKept};

    ghost view = { seen };

    ghost invariant = { IsKept };
}

impl ImageMemory {
    /// The memory with which an image begins: 0, false, no post, unset.
    pub fn new(
        alloc: Global,
        objects: &[Object],
        image: u32,
        images: u32,
    ) -> Result<ImageMemory, Memory>
        ensures { IfOk result (λ memory. memory ≡ start_memory objects.now images image) }
    {
        Ok(ImageMemory {
            image,
            images,
            objects: Sequence::from_slice(alloc, objects)?,
            cells: first_cells(alloc, objects)?,
            posts: first_posts(alloc, objects)?,
            teams: first_teams(alloc, objects)?,
            copointers: first_copointers(alloc, objects)?,
            lines: Vec::new(alloc),
            printed: 0,
        })
    }

    /// The element of an object at an index; trap `Index` outside its bounds.
    pub fn read(&self, object: u32, index: i64) -> Result<i64, Trap>
        ensures { result ≡ element_of self.now.objects self.now.cells object index }
    {
        match self.object(object) {
            Some(found) => element_in(found, self.row(object), index),
            None => Err(Trap::Index),
        }
    }

    /// Puts a number in an element; trap `Index` outside the bounds, and then nothing changes.
    pub fn write(&mut self, object: u32, index: i64, value: i64) -> Result<(), Trap>
        ensures written { MatchResult result (λ _. written self.old object index value ≡ Ok self.new) (λ trap. written self.old object index value ≡ Err trap) }
        ensures err { OnErr result (self.new ≡ self.old) }
    {
        let Some(found) = self.object(object) else {
            return Err(Trap::Index);
        };
        if !has_index(found, index) {
            return Err(Trap::Index);
        }
        put(
            &mut self.cells,
            object as usize,
            offset_of(found, index),
            value,
        );
        Ok(())
    }

    /// The numbers in a section of the image's own memory, at most 256.
    pub fn read_section(
        &self,
        alloc: Global,
        object: u32,
        from: i64,
        extent: u32,
    ) -> Result<Sequence<i64>, SectionFault>
        ensures ok { IfOk result (λ values. values ≡ section_values self.now (own_section self.now object from extent)) }
        ensures trap { SectionFaults result (section_trap (slice_get self.now.objects object) from extent) }
    {
        let found = self.object(object);
        if let Err(trap) = test_section(found, from, extent as usize) {
            return Err(SectionFault::Trap(trap));
        }
        match Sequence::from_slice(alloc, section_of(found, self.row(object), from, extent)) {
            Ok(values) => Ok(values),
            Err(_) => Err(SectionFault::Memory),
        }
    }

    /// Puts numbers, at most 256, in a section of the image's own memory. On a trap nothing changes.
    pub fn write_section(&mut self, object: u32, from: i64, values: &[i64]) -> Result<(), Trap>
        requires { HasCells self.old.objects object }
        ensures test { result ≡ section_trap (slice_get self.old.objects object) from (length values.now) }
        ensures ok { OnOk result (self.new ≡ with_section self.old (own_section self.old object from (length values.now)) values.now) }
        ensures err { OnErr result (self.new ≡ self.old) }
    {
        let found = self.object(object).unwrap();
        if values.is_empty() {
            return Ok(());
        }
        test_section(Some(found), from, values.len())?;
        put_all(
            &mut self.cells,
            object as usize,
            offset_of(found, from),
            values,
        );
        Ok(())
    }

    /// The posts of an event; trap `Index` outside its bounds.
    pub fn posts(&self, object: u32, index: i64) -> Result<u32, Trap>
        ensures { result ≡ posts_of self.now object index }
    {
        match self.object(object) {
            Some(found) => posts_at(found, self.events(object), index),
            None => Err(Trap::Index),
        }
    }

    /// Puts a number of posts at an event; trap `Index` outside its bounds, and then nothing changes.
    pub fn set_posts(&mut self, object: u32, index: i64, posts: u32) -> Result<(), Trap>
        ensures test { result ≡ index_trap (slice_get self.old.objects object) index }
        ensures ok { OnOk result (self.new ≡ with_posts self.old object index posts) }
        ensures err { OnErr result (self.new ≡ self.old) }
    {
        let Some(found) = self.object(object) else {
            return Err(Trap::Index);
        };
        if !has_index(found, index) {
            return Err(Trap::Index);
        }
        put_posts(
            &mut self.posts,
            object as usize,
            offset_of(found, index),
            posts,
        );
        Ok(())
    }

    /// The team in an object, where it is set.
    pub fn team(&self, object: u32) -> Option<&Team>
        ensures { option_copied result ≡ team_at self.now object }
    {
        match self.teams.get(object as usize) {
            Some(team) => team.as_ref(),
            None => None,
        }
    }

    /// Sets the team of an object.
    pub fn set_team(&mut self, object: u32, team: Team)
        ensures { self.new ≡ with_team self.old object team }
    {
        if (object as usize) < self.teams.len() {
            self.teams[object as usize] = Some(team);
        }
    }

    /// The section that a copointer aims at, where it is set.
    pub fn copointer(&self, object: u32) -> Option<Section>
        ensures { result ≡ copointer_at self.now object }
    {
        match self.copointers.get(object as usize) {
            Some(section) => *section,
            None => None,
        }
    }

    /// Aims a copointer at a section.
    pub fn set_copointer(&mut self, object: u32, to: Section)
        ensures { self.new ≡ with_copointer self.old object to }
    {
        if (object as usize) < self.copointers.len() {
            self.copointers[object as usize] = Some(to);
        }
    }

    /// Adds a line to the image's output. Where it isn't added, nothing changes. It takes constant time beyond the line.
    pub fn add_line(&mut self, line: Text) -> Result<(), LineFault>
        ensures ok { OnOk result (self.new ≡ with_line self.old line) }
        ensures room { LineFaults result (has_room self.old line) }
        ensures err { OnErr result (self.new ≡ self.old) }
    {
        let printed = self.printed + line.as_str().len() + 1;
        if printed > 65_536 {
            return Err(LineFault::Trap(Trap::Output));
        }
        if self.lines.push(line).is_err() {
            return Err(LineFault::Memory);
        }
        self.printed = printed;
        Ok(())
    }

    /// The lines that the image has printed, without their ends.
    pub fn lines(&self) -> &[Text]
        ensures { result.now ≡ self.now.lines }
    {
        self.lines.as_slice()
    }

    /// The image's number.
    pub fn image(&self) -> u32
        ensures { result ≡ self.now.image }
    {
        self.image
    }

    /// How many images there are.
    pub fn images(&self) -> u32
        ensures { result ≡ self.now.images }
    {
        self.images
    }

    /// The objects of the program.
    pub fn objects(&self) -> &[Object]
        ensures { result.now ≡ self.now.objects }
    {
        self.objects.as_slice()
    }

    /// The elements of each object, in the order of the objects: none where it is neither integer nor logical.
    pub fn cells(&self) -> &[Sequence<i64>]
        ensures { result.now ≡ self.now.cells }
    {
        self.cells.as_slice()
    }

    /// The team of each object, where it is set.
    pub fn teams(&self) -> &[Option<Team>]
        ensures { result.now ≡ self.now.teams }
    {
        self.teams.as_slice()
    }

    /// Each list has an entry for each object, and each entry as many elements as its object has.
    pub fn is_sized(&self)
        ensures { IsSized self.now }
    {
        let _objects = &self.objects;
    }

    /// An integer or logical object has as many cells as its extent.
    pub fn has_row(&self, object: u32)
        requires { HasCells self.now.objects object }
        ensures { HasRow self.now object }
    {
        self.is_sized();
    }

    /// The object at a place, from 0.
    pub fn object(&self, object: u32) -> Option<Object>
        ensures { result ≡ slice_get self.now.objects object }
    {
        object_at(self.objects.as_slice(), object)
    }

    // The cells of an object.
    fn row(&self, object: u32) -> &[i64]
        ensures { result.now ≡ slice_index_or self.now.cells object [] }
    {
        row_of(self.cells.as_slice(), object as usize)
    }

    // The posts of an object's events.
    fn events(&self, object: u32) -> &[u32]
        ensures { result.now ≡ slice_index_or self.now.posts object [] }
    {
        posts_row(self.posts.as_slice(), object as usize)
    }
}

// The element at an index, where `row` holds the object's cells.
fn element_in(object: Object, row: &[i64], index: i64) -> Result<i64, Trap>
    ensures { result ≡ element_at (Some object) row.now index }
{
    if has_index(object, index) {
        Ok(number_at(row, offset_of(object, index)))
    } else {
        Err(Trap::Index)
    }
}

// The posts at an index, where `row` holds those of the object's events.
fn posts_at(object: Object, row: &[u32], index: i64) -> Result<u32, Trap>
    ensures { result ≡ (if has object index then Ok (slice_index_or row.now (offset object index) 0) else Err Trap.Index) }
{
    if has_index(object, index) {
        Ok(posts_in(row, offset_of(object, index)))
    } else {
        Err(Trap::Index)
    }
}

// The numbers of a section, where `row` holds the object's cells.
fn section_of(object: Option<Object>, row: &[i64], from: i64, extent: u32) -> &[i64]
    ensures { result.now ≡ values_in object row.now from extent }
{
    match object {
        Some(object) => part(row, offset_of(object, from), extent as usize),
        None => &[],
    }
}
