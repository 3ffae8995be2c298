//! What names nodes by a list.
ghost use Rattle.std.specs.Prelude.{◌≡◌};

use gltf_json_record::index::Index;
use gltf_json_record::kinds;
use gltf_json_scene::scene::{Node, Scene};
use gltf_json_scene::skin::Skin;

/// A record that names nodes by a list.
pub(crate) trait Names {
    ghost use Rattle.std.specs.Prelude.{List, ℕ};

    /// The nodes that it names, in order.
    ghost named: { Self → List ℕ };

    /// The same.
    fn named(&self) -> &[Index<kinds::Node>]
        ensures { result.now ≡ named self.now };
}

impl Names for Node {
    ghost use Rattle.gltf_inspect_nodes.specs.Named.{children_of};

    ghost named = { children_of };

    fn named(&self) -> &[Index<kinds::Node>] {
        self.children.as_slice()
    }
}

impl Names for Scene {
    ghost use Rattle.gltf_inspect_nodes.specs.Named.{roots_of};

    ghost named = { roots_of };

    fn named(&self) -> &[Index<kinds::Node>] {
        self.nodes.as_slice()
    }
}

impl Names for Skin {
    ghost use Rattle.gltf_inspect_nodes.specs.Named.{joints_of};

    ghost named = { joints_of };

    fn named(&self) -> &[Index<kinds::Node>] {
        self.joints.as_slice()
    }
}
