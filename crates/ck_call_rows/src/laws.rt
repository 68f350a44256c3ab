//! A law of rows, the contract of a function that does nothing.
ghost use Rattle.ck_call_rows.specs.Naming.{RowsAreTyped};

/// Rows are those of a typed project where their uses say what names are called as and their calls are its calls.
pub fn rows_are_typed()
    ensures { RowsAreTyped }
{}
