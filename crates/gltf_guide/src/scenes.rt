//! Numbers, nodes and triangles.
ghost use Rattle.std.specs.Prelude.{◌≡◌, ◌<◌, All, IfOk, length, option_and_then, option_map};
ghost use Rattle.std.specs.Prelude.{slice_get};
ghost use Rattle.gltf_geometry.specs.Modes.{triangles_of};
ghost use Rattle.gltf_material.specs.Materials.{material_handle};
ghost use Rattle.gltf_scene.specs.Scenes.{scene_handle};
ghost use Rattle.gltf_guide.specs.Materials.{surface_numbers};
ghost use Rattle.gltf_guide.specs.Scenes.{IsNodeCount};

use gltf::Material;
use gltf::mesh::Mode;
use gltf::scene::Scene;
use gltf_geometry::{Vertices, indices_in_range, triangles};
use gltf_numbers::Numbers;
use gltf_walk::laws::each_once;
use gltf_walk::walk_scene;
use std::alloc::{AllocError, Global};

/// The red of a material's base colour; None where that is no list of four numbers, or metalness or
/// roughness is no number.
pub fn red(material: &Material) -> Option<f64>
    ensures { result ≡ option_and_then (λ surface. slice_get surface.base_color_factor 0)
        (surface_numbers (material_handle material.now).json) }
{
    let surface = material.pbr_metallic_roughness().numbers()?;
    Some(surface.base_color_factor[0])
}

/// How many nodes a scene shows, each counted once.
pub fn shown(alloc: Global, scene: &Scene) -> Result<usize, AllocError>
    ensures { let s = scene_handle scene.now in
        IfOk result (IsNodeCount s.document s.json.nodes.items) }
{
    // The proof stands on this law of walks; the call does nothing.
    each_once();
    let steps = walk_scene(alloc, scene)?;
    Ok(steps.iter().filter(|step| !step.again).count())
}

/// How many triangles a primitive has, 0 where an index is out of range; None under another mode.
pub fn triangle_count(mode: Mode, indices: &[u32], positions: usize) -> Option<usize>
    ensures in_range { All (λ index. index < positions) indices.now
        → result ≡ option_map (λ triangles. length triangles) (triangles_of mode indices.now) }
    ensures out_of_range { ¬ All (λ index. index < positions) indices.now
        → result ≡ option_map (λ _. 0) (triangles_of mode indices.now) }
{
    let triangles = triangles(mode, Vertices::Indices(indices))?;
    let in_range = indices_in_range(indices, positions);
    Some(if in_range { triangles.len() } else { 0 })
}
