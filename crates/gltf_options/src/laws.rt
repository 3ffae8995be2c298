//! Laws of lists of names. Each is a statement over the definitions of `specs/`, proved as the
//! contract of a function; the calls in a body are laws that its proof stands on, and do nothing.
ghost use Rattle.gltf_options.specs.Alike.{AreLeftAlike, BreakTheSameBesides};
ghost use Rattle.gltf_options.specs.Alike.{HaveOneBuffers, HaveNoBuffers};
ghost use Rattle.gltf_options.specs.Laws.{AcceptedWithNoList, AcceptedWithList};
ghost use Rattle.gltf_options.specs.Laws.{EmptyListTakesNothing, HoldsWhereHandled};
ghost use Rattle.gltf_options.specs.Laws.{AreBrokenWithout};

use gltf_json::laws::what_shows_the_same_is_alike_in_each_member;
use gltf_rules::laws::{
    no_rule_is_broken_where_all_hold, what_shows_the_same_breaks_the_same_rules,
};

/// Where no name was left out, the calls of `gltf` accept the same bytes, with a document that
/// shows the same, and the same buffers.
pub fn nothing_left_out_is_accepted_with_no_list()
    ensures { AcceptedWithNoList }
{
    what_shows_the_same_is_alike_in_each_member();
    what_shows_the_same_breaks_the_same_rules();
}

/// What the calls of `gltf` accept is accepted with each list that has no name which the document
/// requires: the same document, with the same buffers and no name left out.
pub fn no_listed_name_is_accepted_with_the_list()
    ensures { AcceptedWithList }
{}

/// No name is in the empty list. So with [`crate::Options::new`] the bytes that are accepted are
/// those that the calls of `gltf` accept.
pub fn an_empty_list_takes_nothing()
    ensures { EmptyListTakesNothing }
{}

/// Without the names of a list no rule is broken exactly where the rules of every other member
/// hold, and each required extension is supported by the loader or in the list.
pub fn no_rule_is_broken_where_names_are_handled()
    ensures { HoldsWhereHandled }
{
    no_rule_is_broken_where_all_hold();
}

/// The rules that a file breaks, but those of the names of a list, are those that the document
/// without these names breaks, in their order, and each at its place in the file.
pub fn the_same_rules_are_broken_without_the_names()
    ensures { AreBrokenWithout }
{}

/// Documents that show the same require the same names, and show the same without those of a list.
pub fn what_shows_the_same_is_left_alike()
    ensures { AreLeftAlike }
{
    what_shows_the_same_is_alike_in_each_member();
}

/// Documents that show the same break the same rules but for those of the names of a list, at the
/// same places.
pub fn what_shows_the_same_breaks_the_same_rules_besides()
    ensures { BreakTheSameBesides }
{
    what_shows_the_same_is_alike_in_each_member();
    what_shows_the_same_breaks_the_same_rules();
}

/// Where it is known what names hold, the buffers of documents that show the same have the same
/// bytes, or a fault in both.
pub fn what_shows_the_same_has_the_same_buffers()
    ensures one { HaveOneBuffers }
    ensures none { HaveNoBuffers }
{
    what_shows_the_same_is_alike_in_each_member();
}
