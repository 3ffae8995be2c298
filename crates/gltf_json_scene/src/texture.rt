//! Textures, and how they are sampled (glTF 2.0, section 3.8, "Texture Data").
ghost use Rattle.std.specs.Prelude.{IfOk};
ghost use Rattle.gltf_json_record.specs.Copy.{IsCopy};

use gltf_json_record::boxed::Boxed;
use gltf_json_record::copy::Copies;
use gltf_json_record::error::Error;
use gltf_json_record::extensions::Others;
use gltf_json_record::extras::Extras;
use gltf_json_record::index::Index;
use gltf_json_record::lent::Maybe;
use gltf_json_record::read::FromValue;
use gltf_json_record::validation::{Checked, Code};
use gltf_json_record::{copy_record, kinds, read_record};
use serde_json::Value;
use std::alloc::{AllocError, Global};

/// How a texture is enlarged (glTF 2.0, section 5.26.1, `sampler.magFilter`).
#[derive(Clone, Copy, Debug, PartialEq, Eq)]
pub enum MagFilter {
    /// The nearest texel: the code 9728.
    Nearest,
    /// A mean of the texels around: the code 9729.
    Linear,
}

impl MagFilter {
    ghost use Rattle.std.specs.Prelude.{◌≡◌};
    ghost use Rattle.gltf_json_scene.specs.Names.{mag_filter_name};

    /// The name of its code (glTF 2.0, section 5.26.1, `sampler.magFilter`), as `LINEAR`.
    pub fn as_str(&self) -> &'static str
        ensures { result.now ≡ mag_filter_name self.now }
    {
        match self {
            MagFilter::Nearest => "NEAREST",
            MagFilter::Linear => "LINEAR",
        }
    }
}

impl Code for MagFilter {
    ghost use Rattle.gltf_json_scene.specs.Codes.{mag_filter};

    ghost reads = { mag_filter };

    fn read(value: &Value) -> Option<Checked<MagFilter>> {
        Some(match value.as_u64()? {
            9728 => Checked::Valid(MagFilter::Nearest),
            9729 => Checked::Valid(MagFilter::Linear),
            _ => Checked::Invalid,
        })
    }
}

/// How a texture is made smaller (glTF 2.0, section 5.26.2, `sampler.minFilter`).
#[derive(Clone, Copy, Debug, PartialEq, Eq)]
pub enum MinFilter {
    /// The nearest texel: the code 9728.
    Nearest,
    /// A mean of the texels around: the code 9729.
    Linear,
    /// The nearest texel of the nearest mipmap: the code 9984.
    NearestMipmapNearest,
    /// A mean of the texels around, in the nearest mipmap: the code 9985.
    LinearMipmapNearest,
    /// A mean of the nearest texels of two mipmaps: the code 9986.
    NearestMipmapLinear,
    /// A mean of the texels around, in two mipmaps: the code 9987.
    LinearMipmapLinear,
}

impl MinFilter {
    ghost use Rattle.std.specs.Prelude.{◌≡◌};
    ghost use Rattle.gltf_json_scene.specs.Names.{min_filter_name};

    /// The name of its code (glTF 2.0, section 5.26.2, `sampler.minFilter`), as
    /// `LINEAR_MIPMAP_NEAREST`.
    pub fn as_str(&self) -> &'static str
        ensures { result.now ≡ min_filter_name self.now }
    {
        match self {
            MinFilter::Nearest => "NEAREST",
            MinFilter::Linear => "LINEAR",
            MinFilter::NearestMipmapNearest => "NEAREST_MIPMAP_NEAREST",
            MinFilter::LinearMipmapNearest => "LINEAR_MIPMAP_NEAREST",
            MinFilter::NearestMipmapLinear => "NEAREST_MIPMAP_LINEAR",
            MinFilter::LinearMipmapLinear => "LINEAR_MIPMAP_LINEAR",
        }
    }
}

impl Code for MinFilter {
    ghost use Rattle.gltf_json_scene.specs.Codes.{min_filter};

    ghost reads = { min_filter };

    fn read(value: &Value) -> Option<Checked<MinFilter>> {
        Some(match value.as_u64()? {
            9728 => Checked::Valid(MinFilter::Nearest),
            9729 => Checked::Valid(MinFilter::Linear),
            9984 => Checked::Valid(MinFilter::NearestMipmapNearest),
            9985 => Checked::Valid(MinFilter::LinearMipmapNearest),
            9986 => Checked::Valid(MinFilter::NearestMipmapLinear),
            9987 => Checked::Valid(MinFilter::LinearMipmapLinear),
            _ => Checked::Invalid,
        })
    }
}

/// What stands beyond the edge of a texture (glTF 2.0, sections 5.26.3 and 5.26.4, `sampler.wrapS`
/// and `sampler.wrapT`).
#[derive(Clone, Copy, Debug, PartialEq, Eq)]
pub enum WrappingMode {
    /// The texels of the edge: the code 33071.
    ClampToEdge,
    /// The texture, mirrored at every other turn: the code 33648.
    MirroredRepeat,
    /// The texture once more: the code 10497.
    Repeat,
}

impl WrappingMode {
    ghost use Rattle.std.specs.Prelude.{◌≡◌};
    ghost use Rattle.gltf_json_scene.specs.Names.{wrapping_mode_name};

    /// The name of its code (glTF 2.0, sections 5.26.3 and 5.26.4, `sampler.wrapS` and
    /// `sampler.wrapT`), as `CLAMP_TO_EDGE`.
    pub fn as_str(&self) -> &'static str
        ensures { result.now ≡ wrapping_mode_name self.now }
    {
        match self {
            WrappingMode::ClampToEdge => "CLAMP_TO_EDGE",
            WrappingMode::MirroredRepeat => "MIRRORED_REPEAT",
            WrappingMode::Repeat => "REPEAT",
        }
    }
}

impl Code for WrappingMode {
    ghost use Rattle.gltf_json_scene.specs.Codes.{wrapping_mode};

    ghost reads = { wrapping_mode };

    fn read(value: &Value) -> Option<Checked<WrappingMode>> {
        Some(match value.as_u64()? {
            33071 => Checked::Valid(WrappingMode::ClampToEdge),
            33648 => Checked::Valid(WrappingMode::MirroredRepeat),
            10497 => Checked::Valid(WrappingMode::Repeat),
            _ => Checked::Invalid,
        })
    }
}

/// How a texture is sampled (glTF 2.0, section 5.26, "Sampler").
#[derive(Debug, Drop)]
pub struct Sampler {
    /// How a texture is enlarged: `magFilter`.
    pub mag_filter: Option<Checked<MagFilter>>,
    /// How a texture is made smaller: `minFilter`.
    pub min_filter: Option<Checked<MinFilter>>,
    /// What stands beyond the left and right edges: `wrapS`. `Repeat` where absent.
    pub wrap_s: Checked<WrappingMode>,
    /// What stands beyond the upper and lower edges: `wrapT`. `Repeat` where absent.
    pub wrap_t: Checked<WrappingMode>,
    /// A name given by the user: `name`.
    pub name: Option<String>,
    /// The extensions: `extensions`. None is known here.
    pub extensions: Option<Boxed<Others>>,
    /// What the application stores here: `extras`.
    pub extras: Extras,
}

impl Sampler {
    ghost use Rattle.gltf_json_scene.specs.Textures.{sampler};

    /// A copy of the record, which shows what this one shows.
    #[tactic(auto, unfolding(crate::specs::Textures::sampler))]
    pub fn clone(&self, alloc: Global) -> Result<Sampler, AllocError>
        ensures { IfOk result (IsCopy sampler self.now) }
    {
        copy_record!(self, alloc; Sampler { mag_filter, min_filter, wrap_s, wrap_t, } with {
            name: Maybe,
            extensions: Maybe,
            extras: Maybe,
        })
    }
}

impl Copies for Sampler {
    fn copy(&self, alloc: Global) -> Result<Sampler, AllocError> {
        self.clone(alloc)
    }
}

/// The rows of a sampler, for a macro that reads a record by them:
/// `sampler_rows!(read_record!(alloc, value))`.
#[macro_export]
macro_rules! sampler_rows {
    ($read:ident!($($from:ident),*)) => {
        $read!($($from),*; Sampler {
            mag_filter: optional("magFilter"),
            min_filter: optional("minFilter"),
            wrap_s: or_default("wrapS", Checked::Valid($crate::texture::WrappingMode::Repeat)),
            wrap_t: or_default("wrapT", Checked::Valid($crate::texture::WrappingMode::Repeat)),
            name: optional("name"),
            extensions: optional("extensions"),
            extras: optional("extras"),
        })
    };
}

impl FromValue for Sampler {
    ghost use Rattle.gltf_json_scene.specs.Textures.{sampler};

    ghost kind = { sampler };

    #[tactic(auto, unfolding(crate::specs::Textures::sampler))]
    fn from_value(alloc: Global, value: &Value) -> Result<Sampler, Error> {
        sampler_rows!(read_record!(alloc, value))
    }
}

/// An image, and how it is sampled (glTF 2.0, section 5.29, "Texture").
#[derive(Debug, Drop)]
pub struct Texture {
    /// How the texture is sampled: `sampler`. A sampler with no members stands for it where absent.
    pub sampler: Option<Index<kinds::Sampler>>,
    /// The image: `source`. A texture without it is refused.
    pub source: Index<kinds::Image>,
    /// A name given by the user: `name`.
    pub name: Option<String>,
    /// The extensions: `extensions`. None is known here.
    pub extensions: Option<Boxed<Others>>,
    /// What the application stores here: `extras`.
    pub extras: Extras,
}

impl Texture {
    ghost use Rattle.gltf_json_scene.specs.Textures.{texture};

    /// A copy of the record, which shows what this one shows.
    #[tactic(auto, unfolding(crate::specs::Textures::texture))]
    pub fn clone(&self, alloc: Global) -> Result<Texture, AllocError>
        ensures { IfOk result (IsCopy texture self.now) }
    {
        copy_record!(self, alloc; Texture { sampler, source, } with {
            name: Maybe,
            extensions: Maybe,
            extras: Maybe,
        })
    }
}

impl Copies for Texture {
    fn copy(&self, alloc: Global) -> Result<Texture, AllocError> {
        self.clone(alloc)
    }
}

/// The rows of a texture, for a macro that reads a record by them:
/// `texture_rows!(read_record!(alloc, value))`.
#[macro_export]
macro_rules! texture_rows {
    ($read:ident!($($from:ident),*)) => {
        $read!($($from),*; Texture {
            sampler: optional("sampler"),
            source: required("source"),
            name: optional("name"),
            extensions: optional("extensions"),
            extras: optional("extras"),
        })
    };
}

impl FromValue for Texture {
    ghost use Rattle.gltf_json_scene.specs.Textures.{texture};

    ghost kind = { texture };

    #[tactic(auto, unfolding(crate::specs::Textures::texture))]
    fn from_value(alloc: Global, value: &Value) -> Result<Texture, Error> {
        texture_rows!(read_record!(alloc, value))
    }
}
