//! Documents of the tests.
use gltf::json::{Root, deserialize};
use std::alloc::Global;
use std::test::Fail;

/// Two numbers of two bytes, 1 and 2, in a payload.
pub(crate) const TWO_NUMBERS: &str =
    r#"{"asset":{"version":"2.0"},"buffers":[{"byteLength":4,"uri":"data:;base64,AQACAA=="}],
        "bufferViews":[{"buffer":0,"byteLength":4}],
        "accessors":[{"bufferView":0,"componentType":5123,"count":2,"type":"SCALAR"}]}"#;

/// The bytes 10, 20, 30 and 40, of which the second and the fourth are replaced by 7 and 9.
pub(crate) const TWO_REPLACED: &str = r#"{"asset":{"version":"2.0"},
        "buffers":[{"byteLength":8,"uri":"data:;base64,ChQeKAEDBwk="}],
        "bufferViews":[{"buffer":0,"byteLength":4},{"buffer":0,"byteOffset":4,"byteLength":2},
        {"buffer":0,"byteOffset":6,"byteLength":2}],
        "accessors":[{"bufferView":0,"componentType":5121,"count":4,"type":"SCALAR",
        "sparse":{"count":2,"indices":{"bufferView":1,"componentType":5121},
        "values":{"bufferView":2}}}]}"#;

/// The same with a buffer for each view.
pub(crate) const THREE_BUFFERS: &str =
    r#"{"asset":{"version":"2.0"},"buffers":[{"byteLength":4},{"byteLength":2},{"byteLength":2}],
        "bufferViews":[{"buffer":0,"byteLength":4},{"buffer":1,"byteLength":2},
        {"buffer":2,"byteLength":2}],
        "accessors":[{"bufferView":0,"componentType":5121,"count":4,"type":"SCALAR",
        "sparse":{"count":2,"indices":{"bufferView":1,"componentType":5121},
        "values":{"bufferView":2}}}]}"#;

/// Two nodes with names.
pub(crate) const TWO_NODES: &str =
    r#"{"asset":{"version":"2.0"},"nodes":[{"name":"a"},{"name":"b"}]}"#;

/// The records of a text.
pub(crate) fn records(alloc: Global, text: &str) -> Result<Root, Fail> {
    Ok(deserialize::from_slice(alloc, text.as_bytes())?)
}
