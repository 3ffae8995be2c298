//! Textures and their samplers (glTF 2.0, sections 5.26 and 5.29).
ghost use Rattle.std.specs.Prelude.{◌≡◌};
ghost use Rattle.gltf_handles.specs.Sizes.{code_of};
ghost use Rattle.gltf_c_look.specs.Textures.{wrap_number, mag_of, min_of};
ghost use Rattle.gltf_c_look.specs.Textures.{shown_sampler, sampler_of, shown_texture, texture_of};
ghost use Rattle.gltf_c_look.specs.Textures.{default_sampler, sampler_or_default};

use gltf_c_scene::numbers::index_or_none;
use gltf_json::texture::{MagFilter, MinFilter, Sampler, Texture, WrappingMode};
use gltf_json::{Index, Root, kinds};
use gltf_json_record::validation::Checked;

/// A texture, and how it is sampled. C declares the same struct.
#[repr(C)]
#[derive(Clone, Copy, Drop)]
pub struct GltfTexture {
    /// The image.
    pub image: usize,
    /// The sampler, or `NONE`, and what follows is then that of the default sampler.
    pub sampler: usize,
    /// `magFilter` by its number in the format, or 0.
    pub mag_filter: u32,
    /// `minFilter` by its number in the format, or 0.
    pub min_filter: u32,
    /// `wrapS` by its number in the format.
    pub wrap_s: u32,
    /// `wrapT` by its number in the format.
    pub wrap_t: u32,
    /// 0.
    pub reserved: [usize; 2],
}

/// A sampler. C declares the same struct.
#[repr(C)]
#[derive(Clone, Copy, Drop)]
pub struct GltfSampler {
    /// `magFilter` by its number in the format, or 0.
    pub mag_filter: u32,
    /// `minFilter` by its number in the format, or 0.
    pub min_filter: u32,
    /// `wrapS` by its number in the format.
    pub wrap_s: u32,
    /// `wrapT` by its number in the format.
    pub wrap_t: u32,
    /// 0.
    pub reserved: [usize; 2],
}

/// What the sampler at an index is.
pub fn sampler(root: &Root, index: usize) -> Option<GltfSampler>
    ensures { result ≡ sampler_of index root.now }
{
    Some(shown_sampler(root.samplers.get(index)?))
}

fn shown_sampler(sampler: &Sampler) -> GltfSampler
    ensures { result ≡ shown_sampler sampler.now }
{
    GltfSampler {
        mag_filter: mag_number(sampler.mag_filter),
        min_filter: min_number(sampler.min_filter),
        wrap_s: wrap_number(sampler.wrap_s),
        wrap_t: wrap_number(sampler.wrap_t),
        reserved: [0; 2],
    }
}

/// The number of a filter for magnification, or 0.
fn mag_number(filter: Option<Checked<MagFilter>>) -> u32
    ensures { result ≡ mag_of filter }
{
    match filter {
        Some(Checked::Valid(MagFilter::Nearest)) => 9728,
        Some(Checked::Valid(MagFilter::Linear)) => 9729,
        Some(Checked::Invalid) | None => 0,
    }
}

/// The number of a filter for minification, or 0.
fn min_number(filter: Option<Checked<MinFilter>>) -> u32
    ensures { result ≡ min_of filter }
{
    match filter {
        Some(Checked::Valid(MinFilter::Nearest)) => 9728,
        Some(Checked::Valid(MinFilter::Linear)) => 9729,
        Some(Checked::Valid(MinFilter::NearestMipmapNearest)) => 9984,
        Some(Checked::Valid(MinFilter::LinearMipmapNearest)) => 9985,
        Some(Checked::Valid(MinFilter::NearestMipmapLinear)) => 9986,
        Some(Checked::Valid(MinFilter::LinearMipmapLinear)) => 9987,
        Some(Checked::Invalid) | None => 0,
    }
}

/// The number of a way of wrapping.
fn wrap_number(mode: Checked<WrappingMode>) -> u32
    ensures { result ≡ code_of wrap_number mode }
{
    match mode {
        Checked::Valid(WrappingMode::ClampToEdge) => 33071,
        Checked::Valid(WrappingMode::MirroredRepeat) => 33648,
        Checked::Valid(WrappingMode::Repeat) => 10497,
        Checked::Invalid => 0,
    }
}

/// What the texture at an index is.
pub fn texture(root: &Root, index: usize) -> Option<GltfTexture>
    ensures { result ≡ texture_of index root.now }
{
    let texture = root.textures.get(index)?;
    Some(shown_texture(texture, sampler_or_default(root, texture.sampler)))
}

/// A sampler, or what stands where none is named (glTF 2.0, section 3.8.4.1).
fn sampler_or_default(root: &Root, index: Option<Index<kinds::Sampler>>) -> GltfSampler
    ensures { result ≡ sampler_or_default root.now index }
{
    let Some(index) = index else {
        return default_sampler();
    };
    match sampler(root, index.value()) {
        Some(sampler) => sampler,
        None => default_sampler(),
    }
}

/// A sampler without filters, which repeats.
fn default_sampler() -> GltfSampler
    ensures { result ≡ default_sampler }
{
    GltfSampler {
        mag_filter: 0,
        min_filter: 0,
        wrap_s: 10497,
        wrap_t: 10497,
        reserved: [0; 2],
    }
}

fn shown_texture(texture: &Texture, sampler: GltfSampler) -> GltfTexture
    ensures { result ≡ shown_texture texture.now sampler }
{
    GltfTexture {
        image: texture.source.value(),
        sampler: index_or_none(texture.sampler),
        mag_filter: sampler.mag_filter,
        min_filter: sampler.min_filter,
        wrap_s: sampler.wrap_s,
        wrap_t: sampler.wrap_t,
        reserved: [0; 2],
    }
}
