//! A block of memory from C, as a vector of bytes.
//!
//! No function asks anything of its arguments. What C has to keep is what a `GltfBlock` owns
//! (`specs/Owned.antt`), which C cannot say in a type.
#![tactic(auto)]

ghost use Rattle.std.specs.Prelude.{◌≡◌, ℕ, List, []};
ghost use Rattle.std.specs.Option.{option_map_or};
ghost use Rattle.gltf_c_block.specs.Owned.{block_owns, full_owns};

use std::alloc::Global;
use std::marker::Model;
use std::ptr;

/// A block that C took from `malloc`, and hands over. C declares the same struct. With size 0 there
/// is none, whatever the pointer is.
#[repr(C)]
pub struct GltfBlock {
    at: *mut u8,
    size: usize,
    /// The bytes of the block, as contracts see them.
    pub ghost bytes: { List ℕ },
}

impl Model for GltfBlock {
    ghost also_owns = { λ block. block_owns block.at block.size block.bytes };
}

/// A block that has bytes.
struct Full {
    at: *mut u8,
    size: usize,
    ghost bytes: { List ℕ },
}

impl Model for Full {
    ghost also_owns = { λ full. full_owns full.at full.size full.bytes };
}

/// The fields of a vector of bytes, in the order of the standard library's struct, which has no
/// public call that makes one of a pointer.
#[derive(Clone, Copy)]
struct Parts {
    ptr: *const u8,
    len: usize,
    cap: usize,
    alloc: Global,
}

/// The bytes of a block, as a vector that frees it. That nothing is copied is not in the contract.
pub fn into_vec(alloc: Global, block: GltfBlock) -> Vec<u8>
    ensures { result.items ≡ block.bytes }
{
    match full_block(block) {
        Some(full) => vec_of(alloc, full),
        None => Vec::new(alloc),
    }
}

/// The block, if it has bytes.
fn full_block(block: GltfBlock) -> Option<Full>
    ensures { option_map_or (λ full. full.bytes) result [] ≡ block.bytes }
{
    let GltfBlock { at, size } = block;
    if size == 0 {
        None
    } else {
        Some(Full { at, size })
    }
}

/// The vector that has a block. `Parts` is read as a `Vec`, which has the same fields: the proof
/// shows that what is read owns what a `Vec` owns.
fn vec_of(alloc: Global, full: Full) -> Vec<u8>
    ensures { result.items ≡ full.bytes }
{
    let Full { at, size } = full;
    let parts = Parts {
        ptr: at as *const u8,
        len: size,
        cap: size,
        alloc,
    };
    unsafe { ptr::read(&raw const parts as *const Vec<u8>) }
}
