//! The extensions that are read here.
ghost use Rattle.std.specs.Prelude.{◌≡◌, map};
ghost use Rattle.gltf_extensions.specs.Supported.{supported_names};

/// The names of the extensions that are read here, in the order of letters: what a caller of
/// `gltf_options` passes as names that it handles.
pub fn supported() -> &'static [&'static str]
    ensures { map (λ name. name.now) result.now ≡ supported_names }
{
    &[
        "EXT_mesh_gpu_instancing",
        "EXT_meshopt_compression",
        "EXT_texture_webp",
        "KHR_animation_pointer",
        "KHR_materials_anisotropy",
        "KHR_materials_clearcoat",
        "KHR_materials_diffuse_transmission",
        "KHR_materials_dispersion",
        "KHR_materials_iridescence",
        "KHR_materials_sheen",
        "KHR_mesh_quantization",
        "KHR_node_visibility",
        "KHR_texture_basisu",
        "KHR_xmp_json_ld",
    ]
}
