//! Lists that name a node twice, and targets that are animated twice (glTF 2.0, sections 5.5, 5.25,
//! 5.27 and 5.28).
ghost use Rattle.std.specs.Prelude.{◌≡◌, OnOk, length, []};
ghost use Rattle.gltf_validation.specs.Locations.{places_of};
ghost use Rattle.gltf_findings.specs.Checks.{told_after, list_checks};
ghost use Rattle.gltf_inspect_nodes.specs.Graphs.{unique_checks, uniques_checks};
ghost use Rattle.gltf_inspect_nodes.specs.Graphs.{animation_checks};
ghost use Rattle.gltf_inspect_nodes.specs.Marks.{keyed, marked_unique_checks, AreMarks};

use crate::entry::Entry;
use crate::marks::{clear, mark};
use crate::named::Names;
use gltf_findings::findings::Findings;
use gltf_json_animation::animation::Animation;
use gltf_validation::location::Location;
use std::alloc::AllocError;

/// Reports each node that the list at this member of an element names twice. No node is marked
/// before and after.
pub(crate) fn tell_each<T: Names>(
    marks: &mut Vec<bool>,
    values: &[T],
    name: &'static str,
    location: &Location<'_>,
    findings: &mut Findings,
) -> Result<(), AllocError>
    requires { AreMarks (length marks.old.items) [] marks.old.items }
    ensures told { OnOk result (findings.new ≡ told_after findings.old (places_of location.now)
        (uniques_checks T.named name.now (length marks.old.items) values.now)) }
    ensures marks { OnOk result (AreMarks (length marks.old.items) [] marks.new.items) }
{
    for (i, value) in values.iter().enumerate() {
        let at = Location::Item(&*location, i);
        let list = Location::Member(&at, name);
        tell_repeats(marks, value.named(), &list, findings)?;
    }
    Ok(())
}

/// Reports each element of a list whose number an earlier one has. Nothing is marked before and
/// after.
pub(crate) fn tell_repeats<E: Entry>(
    marks: &mut Vec<bool>,
    entries: &[E],
    location: &Location<'_>,
    findings: &mut Findings,
) -> Result<(), AllocError>
    requires { AreMarks (length marks.old.items) [] marks.old.items }
    ensures told { OnOk result (findings.new ≡ told_after findings.old (places_of location.now)
        (unique_checks E.key E.told (length marks.old.items) [] 0 entries.now)) }
    ensures marks { OnOk result (AreMarks (length marks.old.items) [] marks.new.items) }
{
    tell_marked(marks, entries, location, findings)?;
    clear(marks, entries);
    Ok(())
}

fn tell_marked<E: Entry>(
    marks: &mut Vec<bool>,
    entries: &[E],
    location: &Location<'_>,
    findings: &mut Findings,
) -> Result<(), AllocError>
    ensures told { OnOk result (findings.new ≡ told_after findings.old (places_of location.now)
        (marked_unique_checks E.key E.told marks.old.items 0 entries.now)) }
    ensures marks { OnOk result (marks.new.items ≡ keyed E.key marks.old.items entries.now) }
{
    for (k, entry) in entries.iter().enumerate() {
        let was = mark(marks, entry.key());
        let at = Location::Item(&*location, k);
        entry.tell(!was, &at, findings)?;
    }
    Ok(())
}

/// Reports each target that an earlier channel of its animation has. Nothing is marked before.
pub(crate) fn tell_targets(
    marks: &mut Vec<bool>,
    animations: &[Animation],
    location: &Location<'_>,
    findings: &mut Findings,
) -> Result<(), AllocError>
    requires { AreMarks (length marks.old.items) [] marks.old.items }
    ensures { OnOk result (findings.new ≡ told_after findings.old (places_of location.now)
        (list_checks (animation_checks (length marks.old.items)) animations.now)) }
{
    for (i, animation) in animations.iter().enumerate() {
        let at = Location::Item(&*location, i);
        let channels = Location::Member(&at, "channels");
        tell_repeats(marks, animation.channels.as_slice(), &channels, findings)?;
    }
    Ok(())
}
