//! Skins (glTF 2.0, section 3.7.3, "Skins").

pub mod iter;

ghost use Rattle.std.specs.Prelude.{◌≡◌, ◌<◌, length};
ghost use Rattle.std.specs.Option.{option_copied};
ghost use Rattle.gltf_handles.specs.Accessors.{IsAccessor};
ghost use Rattle.gltf_handles.specs.Lists.{position};
ghost use Rattle.gltf_handles.specs.Members.{text, unknown_extensions, extension_named, Follows};

use crate::scene::Node;
use crate::scene::iter::NamedNodes;
use crate::skin::iter::Joints;
use gltf_handles::accessor::Accessor;
use gltf_handles::inner::Inner;
use gltf_handles::list::List;
use gltf_handles::member::unknown_extensions;
use gltf_json::boxed::lent;
use gltf_json::{Map, Value, kinds, skin};
use gltf_rules::{Records, Valid};

/// The joints that a mesh is bound to (glTF 2.0, section 5.28, "Skin").
#[derive_where(Clone, Copy)]
#[derive_where(Debug; D)]
pub struct Skin<'a, D: Records = Valid> {
    index: usize,
    inner: Inner<'a, skin::Skin, D>,
}

impl<'a, D: Records> Skin<'a, D> {
    ghost use Rattle.gltf_scene.specs.Nodes.{IsNode, AreNamed};
    ghost use Rattle.gltf_scene.specs.Skins.{skin_handle, IsSkin};

    /// The skin at an index below the number of skins.
    pub fn new(document: &'a D, index: usize) -> Self
        requires { index < length (D.root document.now).skins.items }
        ensures { IsSkin (D.root document.now) index result }
    {
        Skin {
            index,
            inner: Inner {
                document,
                json: document.get::<kinds::Skin>(index),
            },
        }
    }

    /// The position among the skins of the document.
    pub fn index(&self) -> usize
        ensures { result ≡ (skin_handle self.now).index }
    {
        self.index
    }

    /// The name given by the user.
    pub fn name(&self) -> Option<&'a str>
        ensures { option_copied result ≡ text (skin_handle self.now).json.name }
    {
        self.inner.json.name.as_deref()
    }

    /// The accessor of the matrices, one a joint, that bring a vertex into the joint's space:
    /// `inverseBindMatrices`. Where it is absent, identities are meant.
    pub fn inverse_bind_matrices(&self) -> Option<Accessor<'a, D>>
        ensures { Follows (IsAccessor (skin_handle self.now).document)
            (skin_handle self.now).json.inverse_bind_matrices result }
    {
        let index = self.inner.json.inverse_bind_matrices?;
        Some(Accessor::new(self.inner.document, index.value()))
    }

    /// The joints, in the order in which vertices name them: `joints`.
    pub fn joints(&self) -> Joints<'a, D>
        ensures { AreNamed (skin_handle self.now).document
            (skin_handle self.now).json.joints.items (position result) }
    {
        List::new(NamedNodes::new(self.inner.document, self.inner.json.joints.as_slice()))
    }

    /// The node that is the root of the skeleton: `skeleton`.
    pub fn skeleton(&self) -> Option<Node<'a, D>>
        ensures { Follows (IsNode (skin_handle self.now).document)
            (skin_handle self.now).json.skeleton result }
    {
        let index = self.inner.json.skeleton?;
        Some(Node::new(self.inner.document, index.value()))
    }

    /// The extensions, none of which is known at a skin; None where there is no member
    /// `extensions`.
    pub fn extensions(&self) -> Option<&'a Map<String, Value>>
        ensures { option_copied result
            ≡ unknown_extensions (skin_handle self.now).json.extensions }
    {
        unknown_extensions(&self.inner.json.extensions)
    }

    /// The extension of this name.
    pub fn extension_value(&self, name: &str) -> Option<&'a Value>
        ensures { option_copied result ≡ extension_named name.now
            (unknown_extensions (skin_handle self.now).json.extensions) }
    {
        self.extensions()?.get(name)
    }

    /// What the application stores here: `extras`.
    pub fn extras(&self) -> Option<&'a Value>
        ensures { option_copied result ≡ (skin_handle self.now).json.extras }
    {
        lent(&self.inner.json.extras)
    }
}
