//! The list of a skin's joints.

use crate::scene::iter::NamedNodes;
use gltf_handles::list::List;
use gltf_rules::Valid;

/// The joints of a skin.
pub type Joints<'a, D = Valid> = List<NamedNodes<'a, D>>;
