ghost use Rattle.std.specs.Prelude.{◌≡◌, slice_get};
ghost use Rattle.caf_base.specs.declared.operation.Section.{Section};
ghost use Rattle.caf_base.specs.Orders.{copy_order as copies, event_found as found, with_events as completes};
ghost use Rattle.caf_base.specs.Places.{bind, element_section as element, event_of, image_of as image, pointed_section as pointed_at, section_of, within as tested};
ghost use Rattle.caf_memory.specs.Placed.{CanFind, IsAimed};

use crate::ImageMemory;
use crate::places::{is_rank, member_of, pointed_in, within};
use crate::span::{pointed, region};
use caf_base::{CopyEvents, CopyOrder, EventAt, EventWanted, Place, Section, SectionWanted, Trap};

/// Where a statement's accesses go, with the traps of their tests.
impl ImageMemory {
    /// The image of a place: trap `Team` where its team is unset, and then `Rank`.
    pub fn image_of(&self, place: Place) -> Result<u32, Trap>
        ensures { result ≡ image self.now place }
    {
        match place {
            Place::Own => Ok(self.image()),
            Place::World(rank) => {
                if is_rank(self.images() as usize, rank) {
                    Ok(rank.unsigned_abs() as u32)
                } else {
                    Err(Trap::Rank)
                }
            }
            Place::Of(object, rank) => member_of(self.team(object), rank),
        }
    }

    /// An index of an object; trap `Index` outside its bounds.
    pub fn index_of(&self, object: u32, index: i64) -> Result<i64, Trap>
        ensures { result ≡ tested (slice_get self.now.objects object) index }
    {
        within(self.object(object), index)
    }

    /// One element of an object at a place: trap `Index`, `Team`, `Rank`, in this order.
    pub fn element_section(&self, object: u32, index: i64, place: Place) -> Result<Section, Trap>
        ensures { result ≡ element self.now object index place }
    {
        let from = within(self.object(object), index)?;
        let image = self.image_of(place)?;
        Ok(Section {
            image,
            object,
            from,
            extent: 1,
        })
    }

    /// One element of what a copointer aims at, counted from 1: trap `Copointer` where it is unset, and then `Index`.
    pub fn pointed_section(&self, copointer: u32, index: i64) -> Result<Section, Trap>
        requires { IsAimed self.now copointer }
        ensures { result ≡ pointed_at self.now copointer index }
    {
        pointed_in(self.copointer(copointer), index)
    }

    /// A section: trap `Copointer`, `Index`, `Section` above 256 elements where it is copied, `Team`, `Rank`, in this
    /// order.
    pub fn section(&self, copied: bool, wanted: &SectionWanted) -> Result<Section, Trap>
        requires { CanFind self.now wanted.now }
        ensures { result ≡ section_of copied self.now wanted.now }
    {
        match *wanted {
            SectionWanted::Region(object, range, place) => {
                let (from, extent) = region(copied, self.object(object), range)?;
                let image = self.image_of(place)?;
                Ok(Section {
                    image,
                    object,
                    from,
                    extent,
                })
            }
            SectionWanted::Pointed(copointer, range) => {
                pointed(copied, self.copointer(copointer), range)
            }
        }
    }

    /// An event: trap `Index`, `Team`, `Rank`, in this order.
    pub fn event(&self, wanted: &EventWanted) -> Result<EventAt, Trap>
        ensures { result ≡ event_of self.now wanted.now.object wanted.now.index wanted.now.place }
    {
        let index = within(self.object(wanted.object), wanted.index)?;
        let image = self.image_of(wanted.place)?;
        Ok(EventAt {
            image,
            object: wanted.object,
            index,
        })
    }

    /// An event that may be left out.
    pub fn event_found(&self, wanted: Option<EventWanted>) -> Result<Option<EventAt>, Trap>
        ensures { result ≡ found self.now wanted }
    {
        match wanted {
            Some(wanted) => {
                let event = self.event(&wanted)?;
                Ok(Some(event))
            }
            None => Ok(None),
        }
    }

    /// The tests of a copy: of its destination, of its source, trap `Section` where their lengths differ, and of its
    /// events.
    pub fn copy_order(
        &self,
        dest: &SectionWanted,
        source: &SectionWanted,
        events: &CopyEvents,
    ) -> Result<CopyOrder, Trap>
        requires dest { CanFind self.now dest.now }
        requires source { CanFind self.now source.now }
        ensures { result ≡ copies self.now dest.now source.now events.now }
    {
        let dest = self.section(true, dest)?;
        let source = self.section(true, source)?;
        if dest.extent != source.extent {
            return Err(Trap::Section);
        }
        self.with_events(events, dest, source)
    }

    // The tests of a copy's events.
    fn with_events(
        &self,
        events: &CopyEvents,
        dest: Section,
        source: Section,
    ) -> Result<CopyOrder, Trap>
        ensures { result ≡ completes self.now events.now dest source }
    {
        let pre = self.event_found(events.pre)?;
        let srce = self.event_found(events.srce)?;
        let deste = self.event_found(events.deste)?;
        Ok(CopyOrder {
            dest,
            source,
            pre,
            srce,
            deste,
        })
    }
}
