ghost use Rattle.std.specs.Prelude.{◌≡◌};
ghost use Rattle.caf_copointer.specs.Aimed.{aimed_at, index_at, EndsWithin};

use caf_base::{Section, Trap};

/// A copointer that is set, after the copointers of Coarray Fortran 2.0 (Mellor-Crummey, Adhianto, Scherer and Jin,
/// PGAS 2009).
#[derive(Clone, Copy, Debug, PartialEq, Eq)]
pub struct CoPtr {
    pub image: u32,
    /// The place of the object among the program's objects, from 0.
    pub object: u32,
    /// The object's index of the first element that it reaches.
    pub from: i64,
    /// The number of elements that it reaches.
    pub extent: u32,
}

impl CoPtr {
    /// A copointer to a section.
    pub fn aim(section: Section) -> CoPtr
        ensures { result ≡ aimed_at section }
    {
        CoPtr {
            image: section.image,
            object: section.object,
            from: section.from,
            extent: section.extent,
        }
    }

    /// The object's index of the element at an index of the copointer, counted from 1; trap `Index` outside its
    /// extent. It takes no memory.
    pub fn at(&self, index: i64) -> Result<i64, Trap>
        requires { EndsWithin self.now.from self.now.extent }
        ensures { result ≡ index_at self.now index }
    {
        if index < 1 || i64::from(self.extent) < index {
            return Err(Trap::Index);
        }
        Ok(self.from + (index - 1))
    }
}
