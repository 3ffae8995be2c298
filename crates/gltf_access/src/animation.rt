//! Why the reader of a channel (`gltf_read::animation::Reader`) read nothing (glTF 2.0, section
//! 3.11, "Animations").

ghost use Rattle.gltf_anim.specs.Animations.{channel_handle};
ghost use Rattle.gltf_read.specs.Channels.{input_of, output_of, property_of};
ghost use Rattle.gltf_read.specs.Kinds.{OfKind, times, outputs};
ghost use Rattle.gltf_read.specs.Outputs.{AreOutputs};
ghost use Rattle.gltf_read.specs.Reading.{AreItems};
ghost use Rattle.gltf_access.specs.Why.{IsWhyMember, Explains};

use crate::not_read::NotRead;
use crate::why;
use gltf_anim::animation::Channel;
use gltf_data::buffer::Buffer;
use gltf_items::{F32, Item};

/// Why nothing is read of the times of keyframes as floats of one number each, which the standard
/// has for them: None exactly where they are that and the reader's call `read_inputs` gives them.
/// That call looks at the bytes of an item alone. The closure gives the bytes of buffers.
pub fn why_no_inputs<'s, F: Fn(Buffer) -> Option<&'s [u8]>>(
    channel: &Channel,
    get_buffer_data: &F,
) -> Option<NotRead>
    requires { F.IsAlwaysCallable get_buffer_data.now }
    ensures why { let c = channel_handle channel.now in
        IsWhyMember times (λ b o. F.post get_buffer_data.now b o)
        c.animation.document (input_of c.animation.json c.json) result }
    ensures exact { let c = channel_handle channel.now in
        Explains (OfKind times (AreItems {t = ⟦<F32 as Item>⟧}))
        (λ b o. F.post get_buffer_data.now b o)
        c.animation.document (input_of c.animation.json c.json) result }
{
    why::times(channel.sampler().input(), get_buffer_data)
}

/// The same of the values of keyframes, of which the reader's call is `read_outputs`, by the types
/// that the standard has for what is animated.
pub fn why_no_outputs<'s, F: Fn(Buffer) -> Option<&'s [u8]>>(
    channel: &Channel,
    get_buffer_data: &F,
) -> Option<NotRead>
    requires { F.IsAlwaysCallable get_buffer_data.now }
    ensures why { let c = channel_handle channel.now in
        IsWhyMember (outputs (property_of c.json)) (λ b o. F.post get_buffer_data.now b o)
        c.animation.document (output_of c.animation.json c.json) result }
    ensures exact { let c = channel_handle channel.now in
        Explains (OfKind (outputs (property_of c.json)) (AreOutputs (property_of c.json)))
        (λ b o. F.post get_buffer_data.now b o)
        c.animation.document (output_of c.animation.json c.json) result }
{
    let property = channel.target().property();
    why::outputs(property, channel.sampler().output(), get_buffer_data)
}
