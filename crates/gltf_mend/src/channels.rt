//! The channels of an animation (glTF 2.0, section 5.7).
ghost use Rattle.std.specs.Prelude.{◌≡◌, IfOk, OnOk, map};
ghost use Rattle.serde_json.specs.View.{view};
ghost use Rattle.gltf_mend.specs.Channels.{names_no_node, with_nodes, IsKept};

use crate::edit::Edit;
use gltf_json_record::read::member;
use serde_json::Value;
use std::alloc::{AllocError, Global};

/// The channels that name a node.
#[derive(Drop)]
pub(crate) struct WithNodes;

impl Edit for WithNodes {
    ghost edited = { λ _ d. with_nodes d };

    fn edit(&self, alloc: Global, value: &Value) -> Result<Value, AllocError> {
        let Value::Array(channels) = value else {
            return value.clone();
        };
        let mut kept = Vec::new(alloc);
        for channel in channels {
            keep(&mut kept, channel)?;
        }
        Ok(Value::Array(kept))
    }
}

/// Adds a channel, where it names a node.
fn keep(kept: &mut Vec<Value>, channel: &Value) -> Result<(), AllocError>
    ensures { OnOk result (IsKept (view channel.now) (map view kept.old.items)
        (map view kept.new.items)) }
{
    if !names_no_node(channel) {
        kept.push(channel.clone()?)?;
    }
    Ok(())
}

/// Whether the target of a channel is there and names no node.
fn names_no_node(channel: &Value) -> bool
    ensures { result ≡ names_no_node (view channel.now) }
{
    match member(channel, "target") {
        Some(target) => target.is_object() && member(target, "node").is_none(),
        None => false,
    }
}
