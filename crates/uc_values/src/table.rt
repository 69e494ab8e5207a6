//! Functions as tables.

ghost use Rattle.std.specs.Prelude.{◌≡◌};
ghost use Rattle.uc_values.specs.Tables.{result_of, same_scalars};

use crate::array::same_scalar;
use crate::value::Value;
use uc_items::Items;

/// The arguments, and the result for these.
pub struct Row {
    pub arguments: Items<Value>,
    pub result: Value,
}

/// A function: the first row with the arguments counts, else the default.
pub struct Table {
    pub rows: Items<Row>,
    pub default: Value,
}

impl Table {
    /// What the function gives for scalar arguments.
    pub fn result(&self, arguments: &[Value]) -> &Value
        ensures { result.now ≡ result_of self.now arguments.now }
    {
        for row in self.rows.as_slice() {
            if same_scalars(row.arguments.as_slice(), arguments) {
                return &row.result;
            }
        }
        &self.default
    }
}

/// Whether two lists of scalars are the same.
fn same_scalars(left: &[Value], right: &[Value]) -> bool
    ensures { result ≡ same_scalars left.now right.now }
{
    if left.len() != right.len() {
        return false;
    }
    for place in 0..left.len() {
        if !same_scalar(&left[place], &right[place]) {
            return false;
        }
    }
    true
}

impl Drop for Row {
    fn drop(self) {
        let Row { arguments, result } = self;
        drop(arguments);
        drop(result);
    }
}

impl Drop for Table {
    fn drop(self) {
        let Table { rows, default } = self;
        drop(rows);
        drop(default);
    }
}
