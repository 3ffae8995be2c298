//! Laws of the bytes of buffers. Each is a statement over the definitions of `specs/`, proved as
//! the contract of a function that does nothing.
ghost use Rattle.gltf_buffers.specs.EachLaws.{AreBytesOfAll, FirstErrorIsThatOfAll};

/// Where no buffer's own answer is an error, these are the bytes of all buffers, as
/// [`crate::read_buffers`] returns them.
pub fn are_bytes_of_all()
    ensures { AreBytesOfAll }
{}

/// The first error among the buffers' own answers is one of [`crate::read_buffers`].
pub fn first_error_is_that_of_all()
    ensures { FirstErrorIsThatOfAll }
{}
