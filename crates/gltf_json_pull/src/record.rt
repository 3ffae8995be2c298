//! A record that is read by its table from the tokens of a text.

/// Reads a record from the object that begins with a token, by the rows of its table. They are
/// those of `read_record!`, in both of its forms: `pull_record!(alloc, first, rest, depth; R {
/// count: required("count"), })`. It stands last in the body of `from_token`.
#[macro_export]
macro_rules! pull_record {
    ($alloc:ident, $first:ident, $rest:ident, $depth:ident; $record:ident {
        $($field:ident: $row:ident($($given:expr),*),)*
    }) => {
        $crate::pull_record!($alloc, $first, $rest, $depth; {
            $($field: $row($($given),*),)*
        } as $record { $($field),* })
    };
    ($alloc:ident, $first:ident, $rest:ident, $depth:ident; {
        $($field:ident: $row:ident($($given:expr),*),)*
    } as $record:expr) => {{
        let read = match $crate::table::pull_table(
            $alloc,
            $first,
            $rest,
            $depth,
            gltf_json_record::read_record!(@names [] $($row($($given),*))*),
            gltf_json_record::read_record!(@rows [] $($row($($given),*))*),
        ) {
            Some(read) => read,
            None => return None,
        };
        let gltf_json_record::by_four!($(($field))*) = read;
        Some($record)
    }};
}
