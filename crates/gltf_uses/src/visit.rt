//! The walk over indices, members that may be absent, and lists.
ghost use Rattle.std.specs.Prelude.{◌≡◌, OnOk};
ghost use Rattle.gltf_validation.specs.Locations.{places_of};
ghost use Rattle.gltf_uses.specs.Uses.{Uses, Use, after_uses, list_uses, member, optional_uses};

use crate::kind::Listed;
use crate::sink::Sink;
use gltf_json_record::boxed::Boxed;
use gltf_json_record::index::Index;
use gltf_validation::location::Location;
use std::alloc::AllocError;

/// What may hold indices.
pub(crate) trait Visit {
    ghost use Rattle.gltf_uses.specs.Uses.{Uses};

    /// The indices that a value holds.
    ghost uses: { Self → Uses };

    /// Adds each of them to the sink, in order.
    fn visit<S: Sink>(&self, location: &Location<'_>, sink: &mut S) -> Result<(), AllocError>
        ensures { OnOk result (sink.new
            ≡ after_uses S.after sink.old (places_of location.now) (uses self.now)) };
}

impl<T: Listed> Visit for Index<T> {
    ghost uses = { λ i. Use T.list i };

    fn visit<S: Sink>(&self, location: &Location<'_>, sink: &mut S) -> Result<(), AllocError> {
        sink.add(location, T::list(), self.value())
    }
}

impl<T: Visit> Visit for Option<T> {
    ghost uses = { λ o. optional_uses T.uses o };

    fn visit<S: Sink>(&self, location: &Location<'_>, sink: &mut S) -> Result<(), AllocError> {
        match self {
            None => Ok(()),
            Some(value) => value.visit(location, sink),
        }
    }
}

impl<T: Visit> Visit for Boxed<T> {
    ghost uses = { λ b. T.uses b };

    fn visit<S: Sink>(&self, location: &Location<'_>, sink: &mut S) -> Result<(), AllocError> {
        self.get().visit(location, sink)
    }
}

impl<T: Visit> Visit for Vec<T> {
    ghost uses = { λ v. list_uses T.uses v.items };

    fn visit<S: Sink>(&self, location: &Location<'_>, sink: &mut S) -> Result<(), AllocError> {
        for (i, value) in self.iter().enumerate() {
            value.visit(&Location::Item(&*location, i), sink)?;
        }
        Ok(())
    }
}

/// Adds the indices at a member.
pub(crate) fn member<T: Visit, S: Sink>(
    value: &T,
    name: &'static str,
    location: &Location<'_>,
    sink: &mut S,
) -> Result<(), AllocError>
    ensures { OnOk result (sink.new ≡ after_uses S.after sink.old (places_of location.now)
        (member name.now (T.uses value.now))) }
{
    value.visit(&Location::Member(location, name), sink)
}

/// Adds the indices at several members of a record, in order: a line `field: "name",` a member.
macro_rules! members {
    ($record:ident, $location:ident, $sink:ident; {
        $field:ident: $name:expr,
    }) => {
        $crate::visit::member(&$record.$field, $name, $location, $sink)
    };
    ($record:ident, $location:ident, $sink:ident; {
        $field:ident: $name:expr, $($rest:tt)+
    }) => {{
        $crate::visit::member(&$record.$field, $name, $location, $sink)?;
        members!($record, $location, $sink; { $($rest)+ })
    }};
}

pub(crate) use members;
