//! Records that a document leaves to its extensions, and that the loader needs: the image of a
//! texture (glTF 2.0, section 5.29.2) and the node of a channel's target (5.7.1).
ghost use Rattle.std.specs.Prelude.{◌≡◌, IfOk, option_map};
ghost use Rattle.serde_json.specs.Data.{string};
ghost use Rattle.serde_json.specs.View.{view};
ghost use Rattle.gltf_fallback.specs.Records.{has_items, first_in, lacks, keeping};
ghost use Rattle.gltf_fallback.specs.Records.{filled, filled_texture, filled_target};
ghost use Rattle.gltf_fallback.specs.Records.{filled_channel, filled_animation, emptied};
ghost use Rattle.gltf_fallback.specs.Records.{emptied_record};
ghost use Rattle.gltf_fallback.specs.Records.{emptied_channel, emptied_animation, on_translation};

use crate::OWN;
use crate::bare::member_at;
use crate::edit::{Edit, edit_list};
use gltf_edit::with_some;
use serde_json::Value;
use std::alloc::{AllocError, Global};

/// The document in which a texture without a source has the first image for one, and a target
/// without a node is the translation of the first node. What they were is kept in a member of
/// theirs. Where there are no images, textures stay as they are, and where there are no nodes,
/// targets do.
pub fn filled(alloc: Global, document: Value) -> Result<Value, AllocError>
    ensures { IfOk result (λ v. view v ≡ filled (view document)) }
{
    let textures = Textures(has_items(&document, "images"));
    let animations = Animations(has_items(&document, "nodes"));
    let document = edit_list(alloc, document, "textures", &textures)?;
    edit_list(alloc, document, "animations", &animations)
}

/// Whether a document has a list of this name that is not empty.
fn has_items(document: &Value, name: &str) -> bool
    ensures { result ≡ has_items name.now (view document.now) }
{
    first_in(document, name).is_some()
}

/// The first item of a list.
fn first_in<'a>(document: &'a Value, name: &str) -> Option<&'a Value>
    ensures { option_map (λ v. view v.now) result ≡ first_in name.now (view document.now) }
{
    document.get(name)?.get(0_usize)
}

/// Whether a member is absent or null.
fn lacks(one: &Value, name: &str) -> bool
    ensures { result ≡ lacks name.now (view one.now) }
{
    member_at(one, name).is_none()
}

/// A record that keeps what another one was.
fn keeping(alloc: Global, one: Value, kept: &Value) -> Result<Value, AllocError>
    ensures { IfOk result (λ v. view v ≡ keeping (view kept.now) (view one)) }
{
    with_some(alloc, one, OWN, Some(kept.clone()?))
}

/// Textures, and whether there are images.
#[derive(Drop)]
struct Textures(bool);

impl Edit for Textures {
    ghost edited = { λ textures. filled_texture textures.0 };

    fn edit(&self, alloc: Global, one: &Value) -> Result<Value, AllocError> {
        let copy = one.clone()?;
        if !self.0 || !lacks(one, "source") {
            return Ok(copy);
        }
        let sourced = with_some(alloc, copy, "source", Some(Value::from(0_u64)))?;
        keeping(alloc, sourced, one)
    }
}

/// Animations, and whether there are nodes.
#[derive(Drop)]
struct Animations(bool);

impl Edit for Animations {
    ghost edited = { λ animations. filled_animation animations.0 };

    fn edit(&self, alloc: Global, one: &Value) -> Result<Value, AllocError> {
        edit_list(alloc, one.clone()?, "channels", &Channels(self.0))
    }
}

/// Channels, and whether there are nodes.
#[derive(Drop)]
struct Channels(bool);

impl Edit for Channels {
    ghost edited = { λ channels. filled_channel channels.0 };

    fn edit(&self, alloc: Global, one: &Value) -> Result<Value, AllocError> {
        let target = match one.get("target") {
            Some(target) => Some(filled_target(alloc, self.0, target)?),
            None => None,
        };
        with_some(alloc, one.clone()?, "target", target)
    }
}

fn filled_target(alloc: Global, has_nodes: bool, one: &Value) -> Result<Value, AllocError>
    ensures { IfOk result (λ v. view v ≡ filled_target has_nodes (view one.now)) }
{
    let copy = one.clone()?;
    if !has_nodes || !lacks(one, "node") {
        return Ok(copy);
    }
    let target = on_translation(alloc, copy)?;
    keeping(alloc, target, one)
}

fn on_translation(alloc: Global, one: Value) -> Result<Value, AllocError>
    ensures { IfOk result (λ v. view v ≡ on_translation (view one)) }
{
    let path = text(alloc, "translation")?;
    let target = with_some(alloc, one, "path", Some(path))?;
    with_some(alloc, target, "node", Some(Value::from(0_u64)))
}

fn text(alloc: Global, text: &str) -> Result<Value, AllocError>
    ensures { IfOk result (λ v. view v ≡ string text.now) }
{
    let text = String::from_str(alloc, text)?;
    Ok(Value::String(text))
}

/// The document in which the textures and the targets that [`filled`] changed are what they were.
pub fn emptied(alloc: Global, document: Value) -> Result<Value, AllocError>
    ensures { IfOk result (λ v. view v ≡ emptied (view document)) }
{
    let document = edit_list(alloc, document, "textures", &Kept)?;
    edit_list(alloc, document, "animations", &KeptAnimations)
}

/// Textures that may keep what they were.
#[derive(Drop)]
struct Kept;

impl Edit for Kept {
    ghost edited = { λ _. emptied_record };

    fn edit(&self, _alloc: Global, one: &Value) -> Result<Value, AllocError> {
        emptied_record(one)
    }
}

fn emptied_record(one: &Value) -> Result<Value, AllocError>
    ensures { IfOk result (λ v. view v ≡ emptied_record (view one.now)) }
{
    match one.get(OWN) {
        Some(kept) => kept.clone(),
        None => one.clone(),
    }
}

/// Animations with targets that may keep what they were.
#[derive(Drop)]
struct KeptAnimations;

impl Edit for KeptAnimations {
    ghost edited = { λ _. emptied_animation };

    fn edit(&self, alloc: Global, one: &Value) -> Result<Value, AllocError> {
        edit_list(alloc, one.clone()?, "channels", &KeptChannels)
    }
}

/// Channels with a target that may keep what it was.
#[derive(Drop)]
struct KeptChannels;

impl Edit for KeptChannels {
    ghost edited = { λ _. emptied_channel };

    fn edit(&self, alloc: Global, one: &Value) -> Result<Value, AllocError> {
        let target = match one.get("target") {
            Some(target) => Some(emptied_record(target)?),
            None => None,
        };
        with_some(alloc, one.clone()?, "target", target)
    }
}
