//! Meshes and their primitives (glTF 2.0, section 3.7, "Geometry").
ghost use Rattle.std.specs.Prelude.{IfOk};
ghost use Rattle.gltf_json_record.specs.Copy.{IsCopy};

use crate::attributes::{Attributes, Known};
use crate::extensions;
pub use crate::semantic::Semantic;
use gltf_json_record::boxed::Boxed;
use gltf_json_record::copy::Copies;
use gltf_json_record::error::Error;
use gltf_json_record::extensions::Others;
use gltf_json_record::extras::Extras;
use gltf_json_record::index::Index;
use gltf_json_record::lent::{Maybe, Member};
use gltf_json_record::read::FromValue;
use gltf_json_record::validation::{Checked, Code};
use gltf_json_record::{copy_record, kinds, read_record};
use serde_json::Value;
use std::alloc::{AllocError, Global};
use std::collections::BTreeMap;

/// How vertices are joined (glTF 2.0, section 5.24.4, `mesh.primitive.mode`).
#[derive(Clone, Copy, Debug, PartialEq, Eq)]
pub enum Mode {
    /// The code 0.
    Points,
    /// The code 1.
    Lines,
    /// The code 2.
    LineLoop,
    /// The code 3.
    LineStrip,
    /// The code 4, which stands where the member is absent.
    Triangles,
    /// The code 5.
    TriangleStrip,
    /// The code 6.
    TriangleFan,
}

impl Mode {
    ghost use Rattle.std.specs.Prelude.{◌≡◌};
    ghost use Rattle.gltf_json_geometry.specs.Names.{mode_name};

    /// The name of its code (glTF 2.0, section 5.24.4, `mesh.primitive.mode`), as
    /// `TRIANGLE_STRIP`.
    pub fn as_str(&self) -> &'static str
        ensures { result.now ≡ mode_name self.now }
    {
        match self {
            Mode::Points => "POINTS",
            Mode::Lines => "LINES",
            Mode::LineLoop => "LINE_LOOP",
            Mode::LineStrip => "LINE_STRIP",
            Mode::Triangles => "TRIANGLES",
            Mode::TriangleStrip => "TRIANGLE_STRIP",
            Mode::TriangleFan => "TRIANGLE_FAN",
        }
    }
}

impl Code for Mode {
    ghost use Rattle.gltf_json_geometry.specs.Codes.{mode};

    ghost reads = { mode };

    fn read(value: &Value) -> Option<Checked<Mode>> {
        Some(match value.as_u64()? {
            0 => Checked::Valid(Mode::Points),
            1 => Checked::Valid(Mode::Lines),
            2 => Checked::Valid(Mode::LineLoop),
            3 => Checked::Valid(Mode::LineStrip),
            4 => Checked::Valid(Mode::Triangles),
            5 => Checked::Valid(Mode::TriangleStrip),
            6 => Checked::Valid(Mode::TriangleFan),
            _ => Checked::Invalid,
        })
    }
}

/// What a morph target adds to the vertices of a primitive (glTF 2.0, section 3.7.2.2, "Morph
/// Targets").
#[derive(Debug, Drop)]
pub struct MorphTarget {
    /// What is added to positions: `POSITION`.
    pub positions: Option<Index<kinds::Accessor>>,
    /// What is added to normals: `NORMAL`.
    pub normals: Option<Index<kinds::Accessor>>,
    /// What is added to tangents: `TANGENT`.
    pub tangents: Option<Index<kinds::Accessor>>,
}

impl MorphTarget {
    ghost use Rattle.gltf_json_geometry.specs.Meshes.{morph_target};

    /// A copy of the record, which shows what this one shows.
    #[tactic(auto, unfolding(crate::specs::Meshes::morph_target))]
    pub fn clone(&self, _alloc: Global) -> Result<MorphTarget, AllocError>
        ensures { IfOk result (IsCopy morph_target self.now) }
    {
        Ok(MorphTarget {
            positions: self.positions,
            normals: self.normals,
            tangents: self.tangents,
        })
    }
}

impl Copies for MorphTarget {
    fn copy(&self, alloc: Global) -> Result<MorphTarget, AllocError> {
        self.clone(alloc)
    }
}

/// The rows of a morph target, for a macro that reads a record by them:
/// `morph_target_rows!(read_record!(alloc, value))`.
#[macro_export]
macro_rules! morph_target_rows {
    ($read:ident!($($from:ident),*)) => {
        $read!($($from),*; MorphTarget {
            positions: optional("POSITION"),
            normals: optional("NORMAL"),
            tangents: optional("TANGENT"),
        })
    };
}

impl FromValue for MorphTarget {
    ghost use Rattle.gltf_json_geometry.specs.Meshes.{morph_target};

    ghost kind = { morph_target };

    #[tactic(auto, unfolding(crate::specs::Meshes::morph_target))]
    fn from_value(alloc: Global, value: &Value) -> Result<MorphTarget, Error> {
        morph_target_rows!(read_record!(alloc, value))
    }
}

/// Geometry to be drawn with one material (glTF 2.0, section 5.24, "Mesh Primitive").
#[derive(Debug, Drop)]
pub struct Primitive {
    /// The known members of `attributes`, in the order of `Semantic`.
    pub attributes: BTreeMap<Semantic, Index<kinds::Accessor>>,
    /// The names of the other members of `attributes`, in the order of their bytes. Rules refuse
    /// them.
    pub unknown_attributes: Vec<String>,
    /// The accessor of the vertex indices: `indices`.
    pub indices: Option<Index<kinds::Accessor>>,
    /// The material: `material`.
    pub material: Option<Index<kinds::Material>>,
    /// How vertices are joined: `mode`, triangles where absent.
    pub mode: Checked<Mode>,
    /// The morph targets: `targets`, empty where absent.
    pub targets: Vec<MorphTarget>,
    /// The extensions: `extensions`.
    pub extensions: Option<Boxed<extensions::mesh::Primitive>>,
    /// What the application stores here: `extras`.
    pub extras: Extras,
}

#[tactic(auto, unfolding(crate::specs::Meshes::primitive, crate::specs::AttributeKind::attributes))]
impl Primitive {
    ghost use Rattle.gltf_json_geometry.specs.Meshes.{primitive};

    /// A copy of the record, which shows what this one shows.
    pub fn clone(&self, alloc: Global) -> Result<Primitive, AllocError>
        ensures { IfOk result (IsCopy primitive self.now) }
    {
        copy_record!(self, alloc; Primitive { indices, material, mode, } with {
            attributes: Known,
            unknown_attributes: Member,
            targets: Member,
            extensions: Maybe,
            extras: Maybe,
        })
    }
}

impl Copies for Primitive {
    fn copy(&self, alloc: Global) -> Result<Primitive, AllocError> {
        self.clone(alloc)
    }
}

/// The rows of a primitive, for a macro that reads a record by them:
/// `primitive_rows!(read_record!(alloc, value))`.
#[macro_export]
macro_rules! primitive_rows {
    ($read:ident!($($from:ident),*)) => {
        $read!($($from),*; {
            attributes: required("attributes"),
            indices: optional("indices"),
            material: optional("material"),
            mode: or_default("mode", Checked::Valid($crate::mesh::Mode::Triangles)),
            targets: list_or_empty("targets"),
            extensions: optional("extensions"),
            extras: optional("extras"),
        } as {
            let $crate::attributes::Attributes { known, unknown } = attributes;
            Primitive {
                attributes: known,
                unknown_attributes: unknown,
                indices,
                material,
                mode,
                targets,
                extensions,
                extras,
            }
        })
    };
}

impl FromValue for Primitive {
    ghost use Rattle.gltf_json_geometry.specs.Meshes.{primitive};

    ghost kind = { primitive };

    #[tactic(auto, unfolding(crate::specs::Meshes::primitive))]
    fn from_value(alloc: Global, value: &Value) -> Result<Primitive, Error> {
        primitive_rows!(read_record!(alloc, value))
    }
}

/// A set of primitives (glTF 2.0, section 5.23, "Mesh").
#[derive(Debug, Drop)]
pub struct Mesh {
    /// The primitives: `primitives`.
    pub primitives: Vec<Primitive>,
    /// The weights of the morph targets, as they stand: `weights`.
    pub weights: Option<Value>,
    /// A name given by the user: `name`.
    pub name: Option<String>,
    /// The extensions: `extensions`. None is known here.
    pub extensions: Option<Boxed<Others>>,
    /// What the application stores here: `extras`.
    pub extras: Extras,
}

impl Mesh {
    ghost use Rattle.gltf_json_geometry.specs.Meshes.{mesh};

    /// A copy of the record, which shows what this one shows.
    #[tactic(auto, unfolding(crate::specs::Meshes::mesh))]
    pub fn clone(&self, alloc: Global) -> Result<Mesh, AllocError>
        ensures { IfOk result (IsCopy mesh self.now) }
    {
        copy_record!(self, alloc; Mesh {} with {
            primitives: Member,
            weights: Maybe,
            name: Maybe,
            extensions: Maybe,
            extras: Maybe,
        })
    }
}

impl Copies for Mesh {
    fn copy(&self, alloc: Global) -> Result<Mesh, AllocError> {
        self.clone(alloc)
    }
}

/// The rows of a mesh, for a macro that reads a record by them:
/// `mesh_rows!(read_record!(alloc, value))`.
#[macro_export]
macro_rules! mesh_rows {
    ($read:ident!($($from:ident),*)) => {
        $read!($($from),*; Mesh {
            primitives: required("primitives"),
            weights: optional("weights"),
            name: optional("name"),
            extensions: optional("extensions"),
            extras: optional("extras"),
        })
    };
}

impl FromValue for Mesh {
    ghost use Rattle.gltf_json_geometry.specs.Meshes.{mesh};

    ghost kind = { mesh };

    #[tactic(auto, unfolding(crate::specs::Meshes::mesh))]
    fn from_value(alloc: Global, value: &Value) -> Result<Mesh, Error> {
        mesh_rows!(read_record!(alloc, value))
    }
}
