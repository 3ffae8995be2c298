//! Uses of textures (glTF 2.0, section 5.30, "Texture Info").
ghost use Rattle.std.specs.Prelude.{IfOk};
ghost use Rattle.gltf_json_record.specs.Copy.{IsCopy};

use crate::extensions;
use gltf_json_record::boxed::Boxed;
use gltf_json_record::copy::Copies;
use gltf_json_record::error::Error;
use gltf_json_record::extras::Extras;
use gltf_json_record::index::Index;
use gltf_json_record::lent::Maybe;
use gltf_json_record::read::FromValue;
use gltf_json_record::{copy_record, kinds, read_record};
use serde_json::Value;
use std::alloc::{AllocError, Global};

/// The use of a texture (glTF 2.0, section 5.30, "Texture Info").
#[derive(Debug, Drop)]
pub struct Info {
    /// The texture: `index`.
    pub index: Index<kinds::Texture>,
    /// The set of texture coordinates, as in the attribute `TEXCOORD_n`: `texCoord`. It is 0 where
    /// absent.
    pub tex_coord: u32,
    /// The extensions: `extensions`.
    pub extensions: Option<Boxed<extensions::texture::Info>>,
    /// What the application stores here: `extras`.
    pub extras: Extras,
}

impl Info {
    ghost use Rattle.gltf_json_material.specs.Textures.{texture_info};

    /// A copy of the record, which shows what this one shows.
    #[tactic(auto, unfolding(crate::specs::Textures::texture_info))]
    pub fn clone(&self, alloc: Global) -> Result<Info, AllocError>
        ensures { IfOk result (IsCopy texture_info self.now) }
    {
        copy_record!(self, alloc; Info { index, tex_coord, } with {
            extensions: Maybe,
            extras: Maybe,
        })
    }
}

impl Copies for Info {
    fn copy(&self, alloc: Global) -> Result<Info, AllocError> {
        self.clone(alloc)
    }
}

/// The rows of the use of a texture, for a macro that reads a record by them:
/// `info_rows!(read_record!(alloc, value))`.
#[macro_export]
macro_rules! info_rows {
    ($read:ident!($($from:ident),*)) => {
        $read!($($from),*; Info {
            index: required("index"),
            tex_coord: or_default("texCoord", 0),
            extensions: optional("extensions"),
            extras: optional("extras"),
        })
    };
}

impl FromValue for Info {
    ghost use Rattle.gltf_json_material.specs.Textures.{texture_info};

    ghost kind = { texture_info };

    #[tactic(auto, unfolding(crate::specs::Textures::texture_info))]
    fn from_value(alloc: Global, value: &Value) -> Result<Info, Error> {
        info_rows!(read_record!(alloc, value))
    }
}
