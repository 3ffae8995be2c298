//! What a line says of a handle.
use crate::line::{Line, Written};
use gltf_handles::list::{Indexed, List};
use gltf_json::{Map, Value};
use std::fmt::Debug;

/// What a line can describe.
pub trait Shown {
    /// Writes all that its getters give, each after the name of the getter. Of extensions the one
    /// named X is looked up.
    fn show(&self, line: &mut Line<'_>);
}

impl Shown for &str {
    fn show(&self, line: &mut Line<'_>) {
        line.push_str(*self);
    }
}

impl<T: Shown> Shown for Option<T> {
    fn show(&self, line: &mut Line<'_>) {
        match self {
            Some(it) => it.show(line),
            None => line.push_str("none"),
        }
    }
}

/// Writes all that the getters of a handle give.
pub fn write_handle<T: Shown>(handle: &T, text: &mut String) -> Written {
    let mut line = Line::new(text);
    handle.show(&mut line);
    line.finish()
}

/// Writes the name of a getter that is not the first, and what it gives.
pub(crate) fn write_next<T: Debug + Copy>(name: &str, given: T, line: &mut Line<'_>) {
    write!(line, ", {name} {given:?}");
}

/// Writes the name of a getter that is not the first, and in parentheses all that the getters of
/// that give which it gives.
pub(crate) fn write_part<T: Shown + Copy>(name: &str, part: Option<T>, line: &mut Line<'_>) {
    write!(line, ", {name} ");
    match part {
        Some(part) => {
            line.push_str("(");
            part.show(line);
            line.push_str(")");
        }
        None => line.push_str("None"),
    }
}

/// Writes the name of a getter that is not the first, and in brackets all that the getters of each
/// item give of the list which it gives.
pub(crate) fn write_parts<S: Indexed>(name: &str, parts: List<S>, line: &mut Line<'_>)
where
    S::Item: Shown,
{
    write!(line, ", {name} [");
    for part in parts {
        line.push_str("(");
        part.show(line);
        line.push_str(")");
    }
    line.push_str("]");
}

/// What is shown by its number alone where it stands in a list.
pub(crate) trait Numbered {
    /// Its index among those of its kind.
    fn number(&self) -> usize;
}

/// Writes the name of a getter that is not the first, and the number of what it gives.
pub(crate) fn write_number<T: Numbered + Drop>(name: &str, given: Option<T>, line: &mut Line<'_>) {
    let number = match &given {
        Some(given) => Some(given.number()),
        None => None,
    };
    write_next(name, number, line);
}

/// Writes the name of a getter that is not the first, and in brackets the number of each item of
/// the list that it gives.
pub(crate) fn write_numbers<S: Indexed>(name: &str, items: List<S>, line: &mut Line<'_>)
where
    S::Item: Numbered,
{
    write!(line, ", {name} [");
    for item in items {
        write!(line, "({})", item.number());
    }
    line.push_str("]");
}

/// Writes what the getters give that each handle with extensions has.
macro_rules! write_rest {
    ($handle:expr, $line:ident) => {
        $crate::shown::write_extensions(
            $handle.extensions(),
            $handle.extension_value("X"),
            $handle.extras(),
            $line,
        )
    };
}

pub(crate) use write_rest;

/// Writes what getters of extensions give, and that of what the application stores.
pub(crate) fn write_extensions(
    extensions: Option<&Map<String, Value>>,
    named_x: Option<&Value>,
    extras: Option<&Value>,
    line: &mut Line<'_>,
) {
    write_next("extensions", extensions, line);
    write_next("X", named_x, line);
    write_next("extras", extras, line);
}
