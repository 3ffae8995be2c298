//! Elements, each by its deltas from the one before it.

ghost use Rattle.std.specs.Prelude.{◌≡◌, ◌<◌, ◌≤◌, ◌*◌, ◌++◌, OnOk, length};
ghost use Rattle.gltf_meshopt.specs.Numbers.{stepped};
ghost use Rattle.gltf_meshopt.specs.Attributes.{element, elements, last_element};

use std::alloc::AllocError;

/// Appends `count` elements by the deltas of columns of `size` bytes; `last` becomes the last one.
pub(crate) fn push_elements(
    out: &mut Vec<u8>,
    last: &mut [u8],
    deltas: &[u8],
    size: usize,
    count: usize,
) -> Result<(), AllocError>
    requires count_in { count ≤ size }
    requires deltas_len { length deltas.now ≡ length last.old * size }
    ensures items { OnOk result (out.new.items ≡ out.old.items ++ elements size deltas.now count 0
        last.old) }
    ensures last { OnOk result (last.new ≡ last_element size deltas.now count 0 last.old) }
{
    for index in 0..count {
        step_element(last, deltas, size, index);
        out.extend_from_slice(last)?;
    }
    Ok(())
}

/// Puts the element with this index of a block in place of the one before it.
#[tactic(auto, unfolding(crate::specs::Attributes::element))]
fn step_element(last: &mut [u8], deltas: &[u8], size: usize, index: usize)
    requires index_in { index < size }
    requires deltas_len { length deltas.now ≡ length last.old * size }
    ensures { last.new ≡ element size deltas.now index last.old }
{
    for (k, byte) in last.iter_mut().enumerate() {
        *byte = step_byte(*byte, deltas[k * size + index]);
    }
}

/// The byte a step away, in zigzag.
fn step_byte(last: u8, step: u8) -> u8
    ensures { result ≡ stepped 256 last step }
{
    let last = u16::from(last);
    let step = u16::from(step);
    if step % 2 == 0 {
        ((last + step / 2) % 256) as u8
    } else {
        ((last + 256 - (step + 1) / 2) % 256) as u8
    }
}
