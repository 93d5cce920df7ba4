ghost use Rattle.std.specs.Prelude.{◌≡◌, IfOk};

use crate::{ExprR, PlaceR};
use caf_base::{Memory, Text};
use std::alloc::Global;

/// A variable that an assignment writes. A scalar is the element at index 1.
#[derive(Drop)]
pub enum VariableR {
    Scalar(u32),
    Local(u32),
    Element(u32, ExprR),
    /// An element of a coarray at the image of the place.
    Coindexed {
        object: u32,
        index: ExprR,
        place: PlaceR<ExprR>,
    },
    /// An element of the section that a copointer aims at, counted from 1.
    Pointed(u32, ExprR),
}

/// What stands for a dummy in a `call` or a `spawn`.
#[derive(Drop)]
pub enum ActualR {
    /// For `intent(in)`: a value.
    Value(ExprR),
    /// For `intent(inout)`: a variable, whose value is copied in, and which the dummy is copied out to.
    Scalar(u32),
    Local(u32),
    Element(u32, ExprR),
}

/// What `print` puts into its line.
#[derive(Drop)]
pub enum PrintR {
    Number(ExprR),
    Logical(ExprR),
    Text(Text),
}

/// The elements of a section. A bound that is missing is that of the variable, or for a copointer 1 and its extent.
#[derive(Drop)]
pub enum RangeR {
    All,
    Cell(ExprR),
    Between(ExprR, ExprR),
    From(ExprR),
    UpTo(ExprR),
}

/// Elements of a variable of the main program, at the image of the place, or at this image where it has none.
#[derive(Drop)]
pub struct RegionR {
    pub object: u32,
    pub range: RangeR,
    pub place: Option<PlaceR<ExprR>>,
}

/// A section that is copied.
#[derive(Drop)]
pub enum SectionR {
    Region(RegionR),
    /// Elements of the section that a copointer aims at.
    Pointed(u32, RangeR),
}

/// An event of this image.
#[derive(Drop)]
pub struct OwnEventR {
    pub object: u32,
    pub index: ExprR,
}

/// An event at the image of the place, or at this image where it has none.
#[derive(Drop)]
pub struct EventR {
    pub own: OwnEventR,
    pub place: Option<PlaceR<ExprR>>,
}

/// An event of an asynchronous copy.
#[derive(Drop)]
pub enum CopyEventR {
    /// The copy needs its post before it starts.
    Pre(OwnEventR),
    /// It is posted when the source has been read.
    Srce(EventR),
    /// It is posted when the destination has been written.
    Deste(EventR),
}

impl VariableR {
    /// The same variable again.
    pub fn copy(&self, alloc: Global) -> Result<VariableR, Memory>
        ensures { IfOk result (λ copy. copy ≡ self.now) }
    {
        match self {
            VariableR::Scalar(object) => Ok(VariableR::Scalar(*object)),
            VariableR::Local(cell) => Ok(VariableR::Local(*cell)),
            VariableR::Element(object, index) => {
                let index = index.copy(alloc)?;
                Ok(VariableR::Element(*object, index))
            }
            VariableR::Coindexed {
                object,
                index,
                place,
            } => {
                let index = index.copy(alloc)?;
                let place = place.copy(alloc)?;
                Ok(VariableR::Coindexed {
                    object: *object,
                    index,
                    place,
                })
            }
            VariableR::Pointed(copointer, index) => {
                let index = index.copy(alloc)?;
                Ok(VariableR::Pointed(*copointer, index))
            }
        }
    }
}

impl ActualR {
    /// The same actual again.
    pub fn copy(&self, alloc: Global) -> Result<ActualR, Memory>
        ensures { IfOk result (λ copy. copy ≡ self.now) }
    {
        match self {
            ActualR::Value(e) => Ok(ActualR::Value(e.copy(alloc)?)),
            ActualR::Scalar(object) => Ok(ActualR::Scalar(*object)),
            ActualR::Local(cell) => Ok(ActualR::Local(*cell)),
            ActualR::Element(object, index) => {
                let index = index.copy(alloc)?;
                Ok(ActualR::Element(*object, index))
            }
        }
    }
}

impl PrintR {
    /// The same part again.
    pub fn copy(&self, alloc: Global) -> Result<PrintR, Memory>
        ensures { IfOk result (λ copy. copy ≡ self.now) }
    {
        match self {
            PrintR::Number(e) => Ok(PrintR::Number(e.copy(alloc)?)),
            PrintR::Logical(e) => Ok(PrintR::Logical(e.copy(alloc)?)),
            PrintR::Text(text) => Ok(PrintR::Text(Text::copy_of(alloc, text.as_str())?)),
        }
    }
}

impl RangeR {
    /// The same range again.
    pub fn copy(&self, alloc: Global) -> Result<RangeR, Memory>
        ensures { IfOk result (λ copy. copy ≡ self.now) }
    {
        match self {
            RangeR::All => Ok(RangeR::All),
            RangeR::Cell(index) => Ok(RangeR::Cell(index.copy(alloc)?)),
            RangeR::Between(first, last) => {
                let first = first.copy(alloc)?;
                let last = last.copy(alloc)?;
                Ok(RangeR::Between(first, last))
            }
            RangeR::From(first) => Ok(RangeR::From(first.copy(alloc)?)),
            RangeR::UpTo(last) => Ok(RangeR::UpTo(last.copy(alloc)?)),
        }
    }
}

/// The same place again, if there is one.
fn copy_place(alloc: Global, place: &Option<PlaceR<ExprR>>) -> Result<Option<PlaceR<ExprR>>, Memory>
    ensures { IfOk result (λ copy. copy ≡ place.now) }
{
    match place {
        None => Ok(None),
        Some(place) => Ok(Some(place.copy(alloc)?)),
    }
}

impl RegionR {
    /// The same region again.
    pub fn copy(&self, alloc: Global) -> Result<RegionR, Memory>
        ensures { IfOk result (λ copy. copy ≡ self.now) }
    {
        let range = self.range.copy(alloc)?;
        let place = copy_place(alloc, &self.place)?;
        Ok(RegionR {
            object: self.object,
            range,
            place,
        })
    }
}

impl SectionR {
    /// The same section again.
    pub fn copy(&self, alloc: Global) -> Result<SectionR, Memory>
        ensures { IfOk result (λ copy. copy ≡ self.now) }
    {
        match self {
            SectionR::Region(region) => Ok(SectionR::Region(region.copy(alloc)?)),
            SectionR::Pointed(copointer, range) => {
                let range = range.copy(alloc)?;
                Ok(SectionR::Pointed(*copointer, range))
            }
        }
    }
}

impl OwnEventR {
    /// The same event again.
    pub fn copy(&self, alloc: Global) -> Result<OwnEventR, Memory>
        ensures { IfOk result (λ copy. copy ≡ self.now) }
    {
        let index = self.index.copy(alloc)?;
        Ok(OwnEventR {
            object: self.object,
            index,
        })
    }
}

impl EventR {
    /// The same event again.
    pub fn copy(&self, alloc: Global) -> Result<EventR, Memory>
        ensures { IfOk result (λ copy. copy ≡ self.now) }
    {
        let own = self.own.copy(alloc)?;
        let place = copy_place(alloc, &self.place)?;
        Ok(EventR { own, place })
    }
}

impl CopyEventR {
    /// The same event again.
    pub fn copy(&self, alloc: Global) -> Result<CopyEventR, Memory>
        ensures { IfOk result (λ copy. copy ≡ self.now) }
    {
        match self {
            CopyEventR::Pre(event) => Ok(CopyEventR::Pre(event.copy(alloc)?)),
            CopyEventR::Srce(event) => Ok(CopyEventR::Srce(event.copy(alloc)?)),
            CopyEventR::Deste(event) => Ok(CopyEventR::Deste(event.copy(alloc)?)),
        }
    }
}
