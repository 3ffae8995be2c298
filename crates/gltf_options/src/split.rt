//! Names, parted by whether they stand in a list.
ghost use Rattle.std.specs.Prelude.{◌≡◌, IfOk, map};
ghost use Rattle.gltf_json_record.specs.Member.{is_one_of as is_one};
ghost use Rattle.gltf_options.specs.Names.{texts, left_of, taken_of};
ghost use Rattle.gltf_options.specs.Places.{places_left};

use std::alloc::{AllocError, Global};

/// Names, parted by whether they stand in a list.
#[derive(Drop)]
pub(crate) struct Parted {
    /// Those that do not, in their order.
    pub(crate) left: Vec<String>,
    /// Where these stand among all of them, counted from 0.
    pub(crate) places: Vec<usize>,
    /// Those that do, in their order.
    pub(crate) taken: Vec<String>,
}

/// The names that are not in the list, and those that are.
pub(crate) fn split(alloc: Global, names: Vec<String>, also: &[&str]) -> Result<Parted, AllocError>
    ensures left { IfOk result (λ parts. texts parts.left.items
        ≡ left_of (map (λ k. k.now) also.now) (texts names.items)) }
    ensures places { IfOk result (λ parts. parts.places.items
        ≡ places_left (map (λ k. k.now) also.now) (texts names.items)) }
    ensures taken { IfOk result (λ parts. texts parts.taken.items
        ≡ taken_of (map (λ k. k.now) also.now) (texts names.items)) }
{
    let mut left = Vec::new(alloc);
    let mut places = Vec::new(alloc);
    let mut taken = Vec::new(alloc);
    for (place, name) in names.into_iter().enumerate() {
        if is_one_of(also, name.as_str()) {
            taken.push(name)?;
        } else {
            left.push(name)?;
            places.push(place)?;
        }
    }
    Ok(Parted {
        left,
        places,
        taken,
    })
}

/// Whether a name is in the list.
fn is_one_of(names: &[&str], name: &str) -> bool
    ensures { result ≡ is_one (map (λ k. k.now) names.now) name.now }
{
    names.contains(&name)
}
