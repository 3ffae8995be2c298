//! What morph targets add to the vertices of a primitive (glTF 2.0, section 3.7.2.2, "Morph
//! Targets").

ghost use Rattle.std.specs.Prelude.{◌≡◌, Some, IfSome, ⊤};
ghost use Rattle.std.specs.Iterator.{at_most, UpTo};
ghost use Rattle.std.specs.Iterator.SizeHint.{IsWithinCount};
ghost use Rattle.gltf_handles.specs.Lists.{position};
ghost use Rattle.gltf_handles.specs.Positions.{Last, Nth, left};
ghost use Rattle.gltf_read.specs.MorphTargets.{IsTargetRead, GivesTarget};
ghost use Rattle.gltf_read.specs.Reading.{AreItems, ReadsMember};
ghost use Rattle.gltf_scene.specs.Meshes.{morph_target_handle};

use crate::table;
use gltf_casting::mesh::util::{
    ReadNormalDisplacements, ReadPositionDisplacements, ReadTangentDisplacements,
};
use gltf_data::buffer::Buffer;
use gltf_scene::mesh::MorphTarget;
use gltf_scene::mesh::iter::MorphTargets;
use std::alloc::AllocError;
use std::marker::PhantomData;

/// What a morph target adds to positions, to normals and to tangents.
pub type ReadMorphTarget<'s> = (
    Option<ReadPositionDisplacements<'s>>,
    Option<ReadNormalDisplacements<'s>>,
    Option<ReadTangentDisplacements<'s>>,
);

/// What is added to positions.
fn positions<'s, F: Fn(Buffer) -> Option<&'s [u8]>>(
    target: MorphTarget,
    get_buffer_data: &F,
) -> Option<ReadPositionDisplacements<'s>>
    requires { F.IsAlwaysCallable get_buffer_data.now }
    ensures { let t = morph_target_handle target.entry in
        ReadsMember AreItems (λ b o. F.post get_buffer_data.now b o) t.document t.json.positions
        result }
{
    table::items(target.positions()?, get_buffer_data)
}

/// What is added to normals.
fn normals<'s, F: Fn(Buffer) -> Option<&'s [u8]>>(
    target: MorphTarget,
    get_buffer_data: &F,
) -> Option<ReadNormalDisplacements<'s>>
    requires { F.IsAlwaysCallable get_buffer_data.now }
    ensures { let t = morph_target_handle target.entry in
        ReadsMember AreItems (λ b o. F.post get_buffer_data.now b o) t.document t.json.normals
        result }
{
    table::items(target.normals()?, get_buffer_data)
}

/// What is added to tangents.
fn tangents<'s, F: Fn(Buffer) -> Option<&'s [u8]>>(
    target: MorphTarget,
    get_buffer_data: &F,
) -> Option<ReadTangentDisplacements<'s>>
    requires { F.IsAlwaysCallable get_buffer_data.now }
    ensures { let t = morph_target_handle target.entry in
        ReadsMember AreItems (λ b o. F.post get_buffer_data.now b o) t.document t.json.tangents
        result }
{
    table::items(target.tangents()?, get_buffer_data)
}

/// All that a morph target adds.
fn read<'s, F: Fn(Buffer) -> Option<&'s [u8]>>(
    target: MorphTarget,
    get_buffer_data: &F,
) -> ReadMorphTarget<'s>
    requires { F.IsAlwaysCallable get_buffer_data.now }
    ensures { let t = morph_target_handle target.entry in
        IsTargetRead (λ b o. F.post get_buffer_data.now b o) t.document t.json result }
{
    (
        positions(target, get_buffer_data),
        normals(target, get_buffer_data),
        tangents(target, get_buffer_data),
    )
}

/// The morph targets of a primitive that are left, each read as it is reached. `nth` is repeated
/// `next`: the law `laws::nth_target_is_next`.
#[derive(Drop)]
pub struct ReadMorphTargets<'a, 's, F> {
    targets: MorphTargets<'a>,
    get_buffer_data: &'a F,
    bytes: PhantomData<&'s u8>,
}

impl<'a, 's, F: Fn(Buffer) -> Option<&'s [u8]>> ReadMorphTargets<'a, 's, F> {
    ghost use Rattle.gltf_read.specs.MorphTargets.{targets_left, closure_of};

    /// Those morph targets, read over the bytes that a closure gives for buffers.
    pub(crate) fn new(targets: MorphTargets<'a>, get_buffer_data: &'a F) -> Self
        ensures targets { targets_left result ≡ position targets.entry }
        ensures closure { closure_of result ≡ get_buffer_data.now }
    {
        ReadMorphTargets {
            targets,
            get_buffer_data,
            bytes: PhantomData,
        }
    }

    /// How many are left.
    pub fn len(&self) -> usize
        ensures { result ≡ left (targets_left self.now) }
    {
        self.targets.len()
    }

    /// How many were left. It reads none.
    pub fn count(self) -> usize
        ensures { result ≡ left (targets_left self.entry) }
    {
        self.targets.count()
    }

    /// Passes over n morph targets, without reading them, and reads the next one. Past the end it
    /// gives none, and nothing is left.
    pub fn nth(&mut self, n: usize) -> Option<ReadMorphTarget<'s>>
        requires { F.IsAlwaysCallable (closure_of self.old) }
        ensures gives { Nth (GivesTarget (λ b o. F.post (closure_of self.old) b o))
            (targets_left self.old) n result (targets_left self.new) }
        ensures closure { closure_of self.new ≡ closure_of self.old }
    {
        let target = self.targets.nth(n)?;
        Some(read(target, self.get_buffer_data))
    }

    /// The last one, read, if one is left.
    pub fn last(self) -> Option<ReadMorphTarget<'s>>
        requires { F.IsAlwaysCallable (closure_of self) }
        ensures { Last (GivesTarget (λ b o. F.post (closure_of self.entry) b o))
            (targets_left self.entry) result }
    {
        let target = self.targets.last()?;
        Some(read(target, self.get_buffer_data))
    }
}

impl<'a, 's, F: Fn(Buffer) -> Option<&'s [u8]>> Iterator for ReadMorphTargets<'a, 's, F> {
    ghost use Rattle.gltf_read.specs.MorphTargets.{targets_left, closure_of};

    type Item = ReadMorphTarget<'s>;

    ghost can_next = { λ s. F.IsAlwaysCallable (closure_of s) };

    ghost next_gives = { λ s r t. Nth (GivesTarget (λ b o. F.post (closure_of s) b o))
        (targets_left s) 0 r (targets_left t) × (closure_of t ≡ closure_of s) };

    ghost remaining = { λ s. at_most (left (targets_left s)) };

    fn next(&mut self) -> Option<ReadMorphTarget<'s>> {
        self.nth(0)
    }

    /// How many are left, as both bounds. It reads none.
    fn size_hint(&self) -> (usize, Option<usize>)
        ensures lower { IsWithinCount result.0 (at_most (left (targets_left self.now))) }
        ensures upper { IfSome result.1 (UpTo (at_most (left (targets_left self.now)))) }
        ensures exact { result ≡ (
          left (targets_left self.now),
          Some (left (targets_left self.now)),
        ) }
    {
        let len = self.len();
        (len, Some(len))
    }
}

impl<'a, 's, F> Clone for ReadMorphTargets<'a, 's, F> {
    ghost use Rattle.gltf_read.specs.MorphTargets.{targets_left, closure_of};

    ghost is_clone = { λ s t. (targets_left t ≡ targets_left s)
        × (closure_of t ≡ closure_of s) };

    ghost is_infallible = { λ _. ⊤ };

    fn clone(&self) -> Result<Self, AllocError> {
        let targets = self.targets.clone()?;
        Ok(ReadMorphTargets {
            targets,
            get_buffer_data: self.get_buffer_data,
            bytes: PhantomData,
        })
    }
}
