//! Who uses what, and extensions of the caller's.
ghost use Rattle.std.specs.Prelude.{◌≡◌, ◌≢◌, ◌++◌, IfOk, IfErr, OnOk, flat_map, string_bytes};
ghost use Rattle.gltf_glb.specs.declared.error.Error.TheVariants.{Memory};
ghost use Rattle.gltf.specs.Errors.{OutOfMemoryOr};
ghost use Rattle.gltf_uses.specs.References.{references_of, unused_of};
ghost use Rattle.gltf_uses.specs.Textures.{textures_of};
ghost use Rattle.gltf_uses.specs.declared.kind.Kind.TheVariants as list;
ghost use Rattle.gltf_guide.specs.Imports.{OpensAs, OpensAsNone, RefusesToOpen};
ghost use Rattle.gltf_guide.specs.Materials.{line_of};

use gltf::Document;
use gltf::json::{self, Path};
use gltf_options::{Imported, Options, import_slice_with};
use gltf_uses::{Kind, references, textures, unused};
use std::alloc::{AllocError, Global};

/// The members that name a texture.
pub fn users(alloc: Global, document: &Document, texture: usize) -> Result<Vec<Path>, AllocError>
    ensures { IfOk result (λ paths. paths.items ≡ references_of document.now list.Texture texture) }
{
    references(alloc, document.as_json(), Kind::Texture, texture)
}

/// The accessors that no member names.
pub fn left_over(alloc: Global, document: &Document) -> Result<Vec<usize>, AllocError>
    ensures { IfOk result (λ left. left.items ≡ unused_of document.now list.Accessor) }
{
    unused(alloc, document.as_json(), Kind::Accessor)
}

/// Writes each use of a texture in a material to a text, a line for each: the member, the texture
/// and its set of coordinates. Where memory runs out, some may be missing.
pub fn write_textures(
    alloc: Global,
    material: &json::Material,
    text: &mut String,
) -> Result<(), AllocError>
    ensures { OnOk result (string_bytes text.new
        ≡ string_bytes text.old ++ flat_map line_of (textures_of material.now)) }
{
    for used in &textures(alloc, material)? {
        write!(text, "{} {} {}\n", used.slot, used.texture, used.tex_coord)?;
    }
    Ok(())
}

/// Imports a file that may require two extensions which the caller handles.
pub fn open(alloc: Global, bytes: &[u8]) -> gltf::Result<Imported>
    ensures accepted { IfOk result (OpensAs bytes.now) }
    ensures refused { IfErr result (OutOfMemoryOr (RefusesToOpen bytes.now)) }
    ensures exact { IfErr result (λ e. e ≢ Memory → OpensAsNone bytes.now) }
{
    let options = Options {
        also_supported: &["KHR_mesh_quantization", "STUDIO_terrain"],
    };
    import_slice_with(alloc, bytes, &options)
}
