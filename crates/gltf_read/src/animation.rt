//! Animations, and readers of their keyframes (glTF 2.0, section 3.11, "Animations").

ghost use Rattle.std.specs.Prelude.{◌≡◌};
ghost use Rattle.gltf_anim.specs.Animations.{channel_handle};
ghost use Rattle.gltf_read.specs.Outputs.{AreOutputs};
ghost use Rattle.gltf_read.specs.Reading.{AreItems, ReadsMember};

use crate::animation::util::{ReadInputs, ReadOutputs};
use crate::table;
pub use gltf_anim::animation::{
    Animation, Channel, Interpolation, Property, Sampler, Target, iter,
};
use gltf_data::buffer::Buffer;
use std::marker::PhantomData;

/// What is read of a channel and its sampler, and its reader, under the names of the Rust crate.
pub mod util {
    pub use crate::animation::Reader;
    pub use gltf_casting::animation::util::{
        MorphTargetWeights, ReadInputs, ReadOutputs, Rotations, Scales, Translations,
        morph_target_weights, rotations,
    };
}

/// Reads the keyframes of a channel, over the bytes that a closure gives for buffers.
#[derive_where(Clone)]
#[derive(Drop)]
pub struct Reader<'a, 's, F> {
    channel: Channel<'a>,
    get_buffer_data: &'a F,
    bytes: PhantomData<&'s u8>,
}

impl<'a, 's, F: Fn(Buffer) -> Option<&'s [u8]>> Reader<'a, 's, F> {
    ghost use Rattle.gltf_read.specs.Channels.{channel_of, closure_of, property_of};
    ghost use Rattle.gltf_read.specs.Channels.{input_of, output_of};

    /// A reader of a channel. The closure gives the bytes of buffers; each reading asks it anew.
    pub fn new(channel: &Channel<'a>, get_buffer_data: &'a F) -> Self
        ensures channel { channel_of result ≡ channel_handle channel.now }
        ensures closure { closure_of result ≡ get_buffer_data.now }
    {
        Reader {
            channel: *channel,
            get_buffer_data,
            bytes: PhantomData,
        }
    }

    /// The times of the keyframes, in seconds: `input` of the channel's sampler. None where its
    /// accessor cannot be read as that. The same holds of the values.
    pub fn read_inputs(&self) -> Option<ReadInputs<'s>>
        requires { F.IsAlwaysCallable (closure_of self.now) }
        ensures { let c = channel_of self.now in
            ReadsMember AreItems (λ b o. F.post (closure_of self.now) b o) c.animation.document
            (input_of c.animation.json c.json) result }
    {
        table::items(self.channel.sampler().input(), self.get_buffer_data)
    }

    /// The values of the keyframes, by the property that is animated: `output` of the channel's
    /// sampler.
    pub fn read_outputs(&self) -> Option<ReadOutputs<'s>>
        requires { F.IsAlwaysCallable (closure_of self.now) }
        ensures { let c = channel_of self.now in
            ReadsMember (AreOutputs (property_of c.json))
            (λ b o. F.post (closure_of self.now) b o) c.animation.document
            (output_of c.animation.json c.json) result }
    {
        let property = self.channel.target().property();
        let output = self.channel.sampler().output();
        table::outputs(property, output, self.get_buffer_data)
    }
}
