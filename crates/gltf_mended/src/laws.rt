//! Laws of mending. Each is a statement over definitions, proved as the contract of a function that
//! does nothing.
ghost use Rattle.gltf_mended.specs.Laws.{LeavesMembers, LeavesEdits, LeavesPictures};
ghost use Rattle.gltf_mended.specs.Laws.{LeavesBundles, LeavesPlaces, LeavesUris};
ghost use Rattle.gltf_mended.specs.Laws.{LeavesWhole};

/// A mended document has all members but its animations, meshes and textures as they were.
pub fn members_are_left()
    ensures { LeavesMembers }
{}

/// Such a member may be put into a document before it is mended, or behind.
pub fn edits_are_left()
    ensures { LeavesEdits }
{}

/// Images may go into buffers of their own, and buffers become one, before a document is mended, or
/// behind. Each view lies in its buffer, if it did.
pub fn bundles_are_left()
    ensures pictures { LeavesPictures }
    ensures bundles { LeavesBundles }
    ensures places { LeavesPlaces }
{}

/// Buffers and images may have URIs before a document is mended, or behind.
pub fn uris_are_left()
    ensures { LeavesUris }
{}

/// Where the records of a text are read as it stands, nothing of it is mended, unless the names of
/// attributes are.
pub fn what_is_read_is_left_whole()
    ensures { LeavesWhole }
{}
