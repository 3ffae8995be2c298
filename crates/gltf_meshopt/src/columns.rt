//! Columns: the deltas of one byte of each element of a block.

ghost use Rattle.std.specs.Prelude.{◌≡◌, ◌<◌, ◌≤◌, ◌+◌, ◌*◌, OnOk, length, vec_len};
ghost use Rattle.gltf_meshopt.specs.Reading.{Reads, after};
ghost use Rattle.gltf_meshopt.specs.Attributes.{width_of, groups_at, column_at, columns_at};

use crate::fault::Stop;
use crate::groups::group;

/// Appends the deltas of so many columns of `groups` groups, and returns what follows them.
pub(crate) fn push_columns<'a>(
    out: &mut Vec<u8>,
    columns: usize,
    groups: usize,
    bytes: &'a [u8],
) -> Result<&'a [u8], Stop>
    requires { groups ≤ 16 }
    ensures read { Reads (λ rest. (out.new.items, rest.now)) result
        (after out.old.items (columns_at columns groups bytes.now)) }
    ensures len { OnOk result (vec_len out.new ≡ vec_len out.old + columns * (16 * groups)) }
{
    let mut rest = bytes;
    for _ in 0..columns {
        rest = push_column(out, groups, rest)?;
    }
    Ok(rest)
}

/// Appends the deltas of a column, and returns what follows it.
#[tactic(auto, unfolding(crate::specs::Attributes::column_at))]
fn push_column<'a>(out: &mut Vec<u8>, groups: usize, bytes: &'a [u8]) -> Result<&'a [u8], Stop>
    requires { groups ≤ 16 }
    ensures read { Reads (λ rest. (out.new.items, rest.now)) result
        (after out.old.items (column_at groups bytes.now)) }
    ensures len { OnOk result (vec_len out.new ≡ vec_len out.old + 16 * groups) }
{
    let size = (groups + 3) / 4;
    if bytes.len() < size {
        return Err(Stop::Cut(bytes.len()));
    }
    let (header, rest) = bytes.split_at(size);
    push_groups(out, groups, header, rest)
}

/// Appends the deltas of so many groups, whose widths are in `header`.
fn push_groups<'a>(
    out: &mut Vec<u8>,
    groups: usize,
    header: &[u8],
    bytes: &'a [u8],
) -> Result<&'a [u8], Stop>
    requires { groups ≤ 4 * length header.now }
    ensures read { Reads (λ rest. (out.new.items, rest.now)) result
        (after out.old.items (groups_at groups 0 header.now bytes.now)) }
    ensures len { OnOk result (vec_len out.new ≡ vec_len out.old + 16 * groups) }
{
    let mut rest = bytes;
    for index in 0..groups {
        let Some(found) = group(width_of(header, index), rest) else {
            return Err(Stop::Cut(rest.len()));
        };
        let deltas = found.0;
        out.extend_from_slice(&deltas)?;
        rest = found.1;
    }
    Ok(rest)
}

/// The width of a group.
fn width_of(header: &[u8], group: usize) -> u8
    requires { group < 4 * length header.now }
    ensures value { result ≡ width_of header.now group }
    ensures small { result < 4 }
{
    (header[group / 4] >> (2 * (group % 4))) % 4
}
