//! The code of README.md and of docs/LIBRARY.md, word for word, and a run of it.
//! `tools/copies.sh` compares that of the README.
use gltf::accessor::F32;
use gltf::{import_slice, imported_items, read_items};
use std::alloc::Global;

/// The first item of a file's first accessor, where its items are points.
fn first_point(alloc: Global, file: &[u8]) -> gltf::Result<Option<[F32; 3]>> {
    let (document, buffers) = import_slice(alloc, file)?;
    match imported_items::<[F32; 3]>(&document, &buffers, 0) {
        Some(mut points) => Ok(points.next()),
        None => Ok(None),
    }
}

/// All items of its second accessor, where they are 16-bit numbers.
fn indices(alloc: Global, file: &[u8]) -> gltf::Result<Option<Vec<u16>>> {
    read_items(alloc, file, 1)
}

use gltf::Buffer;
use gltf::buffer::bytes_of;
use gltf::mesh::Reader;
use std::num::f32_from_bits_with_nan;
use std::test::Fail;

/// The number that four bytes of a buffer spell; a NaN where they spell one.
fn number(bytes: F32) -> f32 {
    f32_from_bits_with_nan(u32::from_le_bytes(bytes.to_bytes()))
}

/// How many positions each mesh has in its first primitive, 0 where these cannot be read.
fn positions(alloc: Global, file: &[u8]) -> gltf::Result<Vec<usize>> {
    let (document, buffers) = import_slice(alloc, file)?;
    let bytes = |buffer: Buffer| bytes_of(&buffers, buffer);
    let mut counts = Vec::new(alloc);
    let mut meshes = document.meshes();
    while let Some(mesh) = meshes.next() {
        let mut count = 0;
        if let Some(primitive) = mesh.primitives().next() {
            if let Some(points) = Reader::new(&primitive, &bytes).read_positions() {
                count = points.len();
            }
        }
        counts.push(count)?;
    }
    Ok(counts)
}

/// A mesh of the point (1, 2, 3), and the numbers 1 and 2.
const POINT_AND_NUMBERS: &str = r#"{"asset":{"version":"2.0"},
    "buffers":[{"byteLength":16,"uri":"data:;base64,AACAPwAAAEAAAEBAAQACAA=="}],
    "bufferViews":[{"buffer":0,"byteLength":12},{"buffer":0,"byteOffset":12,"byteLength":4}],
    "accessors":[{"bufferView":0,"componentType":5126,"count":1,"type":"VEC3"},
        {"bufferView":1,"componentType":5123,"count":2,"type":"SCALAR"}],
    "meshes":[{"primitives":[{"attributes":{"POSITION":0}}]}]}"#;

#[test]
fn first_steps_read_a_point_and_numbers(rt: HostRuntime) -> Result<(), Fail> {
    let file = POINT_AND_NUMBERS.as_bytes();
    let [x, y, z] = first_point(rt.alloc(), file)?.ok_or("a point")?;
    assert!(rt; number(x) == 1.0 && number(y) == 2.0 && number(z) == 3.0);
    let numbers = indices(rt.alloc(), file)?.ok_or("numbers")?;
    assert_eq!(rt; numbers.as_slice(), [1u16, 2].as_slice());
    let counts = positions(rt.alloc(), file)?;
    assert_eq!(rt; counts.as_slice(), [1usize].as_slice());
    Ok(())
}
