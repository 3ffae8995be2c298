//! Tables of parents in order: each parent stands before its children, or each behind them, as
//! writers list their nodes. One pass along such a table leads each node to its end.
ghost use Rattle.std.specs.Prelude.{◌≡◌, ◌↔◌, IsTrue};
ghost use Rattle.gltf_inspect_nodes.specs.Orders.{ParentsComeFirst, ParentsComeLast, ends_by};

use crate::roots::led;

/// Whether each node leads to itself or to one before it.
pub fn parents_come_first(table: &[usize]) -> bool
    ensures { IsTrue result ↔ ParentsComeFirst table.now }
{
    for (i, parent) in table.iter().enumerate() {
        if *parent > i {
            return false;
        }
    }
    true
}

/// Whether each node leads to itself or to one behind it.
pub fn parents_come_last(table: &[usize]) -> bool
    ensures { IsTrue result ↔ ParentsComeLast table.now }
{
    for (i, parent) in table.iter().enumerate() {
        if *parent < i {
            return false;
        }
    }
    true
}

/// Leads each node to its end, the first one first: its parent stands before it, and leads to the
/// end by then.
pub(crate) fn end_forwards(table: &mut [usize])
    requires { ParentsComeFirst table.old }
    ensures { table.new ≡ ends_by table.old }
{
    for i in 0..table.len() {
        table[i] = led(table, table[i]);
    }
}

/// The same where parents stand behind their children: the last one first.
pub(crate) fn end_backwards(table: &mut [usize])
    requires { ParentsComeLast table.old }
    ensures { table.new ≡ ends_by table.old }
{
    for i in (0..table.len()).rev() {
        table[i] = led(table, table[i]);
    }
}
