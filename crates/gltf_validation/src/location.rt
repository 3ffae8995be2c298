//! Where the walk is.
ghost use Rattle.std.specs.Prelude.{◌≡◌, IfOk};
ghost use Rattle.gltf_validation.specs.Locations.{places_of};

use gltf_json_geometry::semantic::Semantic;
use gltf_json_record::path::{Path, Step};
use std::alloc::{AllocError, Global};

/// A place in a document, tied to the places above it. It lies on the stack of the walk and takes
/// no memory: a path is made of it only where a rule is broken.
#[derive(Clone, Copy)]
pub enum Location<'a> {
    /// The whole document.
    Whole,
    /// The member of this name.
    Member(&'a Location<'a>, &'static str),
    /// The element at this index.
    Item(&'a Location<'a>, usize),
    /// The attribute of this meaning.
    Attribute(&'a Location<'a>, &'a Semantic),
    /// The attribute of this name, which has no meaning.
    UnknownAttribute(&'a Location<'a>, &'a str),
}

impl Location<'_> {
    /// The steps that lead here from the whole document.
    pub fn path(&self, alloc: Global) -> Result<Path, AllocError>
        ensures { IfOk result (λ path. path ≡ places_of self.now) }
    {
        let (above, step) = match self {
            Location::Whole => return Ok(Path::new(alloc)),
            Location::Member(above, name) => (above, Step::Member(*name)),
            Location::Item(above, index) => (above, Step::Item(*index)),
            Location::Attribute(above, semantic) => (
                above,
                Step::Attribute(semantic.to_string(alloc)?),
            ),
            Location::UnknownAttribute(above, name) => {
                (above, Step::Attribute(String::from_str(alloc, name)?))
            }
        };
        let mut path = above.path(alloc)?;
        path.push(step)?;
        Ok(path)
    }
}
