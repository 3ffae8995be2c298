//! Places of members in a document.
ghost use Rattle.std.specs.Prelude.{◌≡◌, ◌++◌, ◌∷◌, [], IfOk, OnOk, string_bytes};
ghost use Rattle.gltf_foreign.specs.Place.{step_view, at_view, places_view, under};
ghost use Rattle.gltf_foreign.specs.Place.{is_name, is_index};
ghost use Rattle.gltf_foreign.specs.Place.{named};

use std::alloc::{AllocError, Global};
use std::fmt;

/// One step: to the member of this name, or to the element at this index.
#[derive(Debug, Drop)]
pub enum Step {
    /// The member of this name.
    Name(String),
    /// The element at this index.
    Index(usize),
}

/// Where a member stands in a document: the steps that lead to it, the last of them first.
///
/// Its text is the JSON Pointer (RFC 6901) of the member.
#[derive(Debug, Drop)]
pub struct Place {
    /// The steps, from the member up to the document.
    pub steps: Vec<Step>,
}

impl Place {
    /// The name of the extension whose object the member stands in: that of the step behind the
    /// last one to a member `extensions`. None where there is no such step.
    pub fn extension(&self) -> Option<&str> {
        let steps = self.steps.as_slice();
        for i in 1..steps.len() {
            if is_name(&steps[i], "extensions") {
                return text_of(&steps[i - 1]);
            }
        }
        None
    }
}

/// The name of the member that a step leads to.
fn text_of(step: &Step) -> Option<&str> {
    match step {
        Step::Name(name) => Some(name.as_str()),
        Step::Index(_) => None,
    }
}

/// Whether a step leads to the member of this name.
pub(crate) fn is_name(step: &Step, name: &str) -> bool
    ensures { result ≡ is_name name.now (step_view step.now) }
{
    match step {
        Step::Name(own) => own.as_str() == name,
        Step::Index(_) => false,
    }
}

/// Whether a step leads to an element.
pub(crate) fn is_index(step: &Step) -> bool
    ensures { result ≡ is_index (step_view step.now) }
{
    matches!(step, Step::Index(_))
}

/// A step whose name is lent.
#[derive(Clone, Copy, Debug)]
pub(crate) enum At<'a> {
    /// The member of this name.
    Name(&'a str),
    /// The element at this index.
    Index(usize),
}

/// The step.
fn step_of(alloc: Global, at: At<'_>) -> Result<Step, AllocError>
    ensures { IfOk result (λ step. step_view step ≡ at_view at.entry) }
{
    match at {
        At::Name(name) => Ok(Step::Name(String::from_str(alloc, name)?)),
        At::Index(index) => Ok(Step::Index(index)),
    }
}

/// Adds places that stand under a step.
pub(crate) fn add_under(
    alloc: Global,
    all: &mut Vec<Place>,
    more: Vec<Place>,
    at: At<'_>,
) -> Result<(), AllocError>
    ensures { OnOk result (places_view all.new.items
        ≡ places_view all.old.items ++ under (at_view at.entry) (places_view more.items)) }
{
    'places: for place in more {
        let mut place = place;
        place.steps.push(step_of(alloc, at)?)?;
        all.push(place)?;
    }
    Ok(())
}

/// Adds the place of a member.
pub(crate) fn add_member(alloc: Global, all: &mut Vec<Place>, name: &str) -> Result<(), AllocError>
    ensures { OnOk result (places_view all.new.items
        ≡ places_view all.old.items ++ (named name.now ∷ []) ∷ []) }
{
    let mut steps = Vec::new(alloc);
    steps.push(step_of(alloc, At::Name(name))?)?;
    all.push(Place { steps })?;
    Ok(())
}

impl fmt::Display for Place {
    fn fmt<W: fmt::Write>(&self, f: &mut fmt::Formatter<W>) -> fmt::Result {
        for step in self.steps.iter().rev() {
            match step {
                Step::Name(name) => write_token(f, name.as_str())?,
                Step::Index(index) => write!(f, "/{index}")?,
            }
        }
        Ok(())
    }
}

/// Writes the reference token of a name (RFC 6901, section 3).
fn write_token<W: fmt::Write>(f: &mut fmt::Formatter<W>, name: &str) -> fmt::Result {
    f.write_str("/")?;
    for c in name.chars() {
        match c {
            '~' => f.write_str("~0")?,
            '/' => f.write_str("~1")?,
            c => f.write_char(c)?,
        }
    }
    Ok(())
}
