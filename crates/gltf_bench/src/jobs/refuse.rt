//! Files are refused: late, or for many faults.
use crate::jobs::check::check_file;
use crate::jobs::imported::add_import;
use gltf_bench_digest::digest::Digest;
use gltf_bench_files::{awkward, scene};
use std::alloc::{AllocError, Global};

/// A last node that names a mesh which is not there.
const NO_MESH: &str = "{\"name\": \"Last.@d\", \"mesh\": 9@d}";

/// A last node whose mesh is no index.
const NO_INDEX: &str = "{\"name\": \"Last.@d\", \"mesh\": \"9@d\"}";

/// A last node that is no JSON.
const NO_JSON: &str = "{\"name\": \"Last.@d\", \"mesh\": 9@d,}";

/// Is told so many times why files are refused: scenes of ten nodes for each cube, whose last node
/// has the only fault, and nodes of which each one breaks three rules. Of these there are reports
/// too.
pub fn refuse(
    alloc: Global,
    rounds: u32,
    cubes: u32,
    seed: u64,
    digest: &mut Digest,
) -> Result<(), AllocError> {
    let mut late = Vec::new(alloc);
    late.push(scene::container(alloc, seed, cubes, NO_MESH)?)?;
    late.push(scene::container(alloc, seed ^ 1, cubes, NO_INDEX)?)?;
    late.push(scene::container(alloc, seed ^ 2, cubes, NO_JSON)?)?;
    late.push(awkward::broken(alloc, seed ^ 3, cubes.wrapping_mul(10))?)?;
    let mut broken = awkward::broken(alloc, seed ^ 4, cubes.wrapping_mul(5))?;
    for _ in 0..rounds {
        for file in late.iter_mut() {
            file.renew();
            add_import(alloc, &file.bytes, digest);
        }
        broken.renew();
        check_file(alloc, &broken.bytes, digest)?;
    }
    Ok(())
}
