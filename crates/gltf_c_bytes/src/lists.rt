//! Lists of numbers that records hold.
ghost use Rattle.std.specs.Prelude.{◌≡◌};
ghost use Rattle.std.specs.Option.{option_copied};
ghost use Rattle.gltf_c_bytes.specs.Lists.{number_list_of, member_of};

use gltf_json::{Root, Value};

/// A list of numbers that a record holds.
#[derive(Clone, Copy, Debug, PartialEq, Eq)]
pub enum NumberList {
    /// `min` of an accessor (glTF 2.0, section 5.1.8).
    AccessorMin,
    /// `max` of an accessor (section 5.1.7).
    AccessorMax,
    /// `weights` of a mesh (section 5.23.2).
    MeshWeights,
    /// `weights` of a node (section 5.25.9).
    NodeWeights,
}

impl NumberList {
    /// The list of a number, where there is one.
    pub fn of(number: u32) -> Option<NumberList>
        ensures { result ≡ number_list_of number }
    {
        match number {
            0 => Some(NumberList::AccessorMin),
            1 => Some(NumberList::AccessorMax),
            2 => Some(NumberList::MeshWeights),
            3 => Some(NumberList::NodeWeights),
            _ => None,
        }
    }
}

/// The member of the record at an index that is the list of a number, as it stands. None where
/// there is no such list or record.
pub fn member(root: &Root, what: u32, index: usize) -> Option<&Option<Value>>
    ensures { option_copied result ≡ member_of what index root.now }
{
    match NumberList::of(what)? {
        NumberList::AccessorMin => Some(&root.accessors.get(index)?.min),
        NumberList::AccessorMax => Some(&root.accessors.get(index)?.max),
        NumberList::MeshWeights => Some(&root.meshes.get(index)?.weights),
        NumberList::NodeWeights => Some(&root.nodes.get(index)?.weights),
    }
}
