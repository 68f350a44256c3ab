//! The document of version 2 that says what some settings are.
ghost use Rattle.std.specs.Prelude.{◌≡◌, IfOk, OnOk, Ok, map};
ghost use Rattle.toml.specs.Data.{string, table};
ghost use Rattle.toml.specs.View.{table_view, view};
ghost use Rattle.ck_settings.specs.Values.{callback_view, function_view, settings_view, vector_view};
ghost use Rattle.ck_settings.specs.Documents.{settings_of, upgraded_values};
ghost use Rattle.ck_settings.specs.Valid.{AreValid};
ghost use Rattle.ck_settings.specs.Upgrading.{
  callback_members,
  class_of as class_written,
  function_members,
  put_member,
  tables,
  upgraded_members,
  vector_members,
  wakes_of as wakes_written,
};

use crate::keys::{
    CALLBACK, CLASS, FUNCTION, KERNEL_PRIORITY, LAST_VERSION, LOCKED, MEMBER, NAME, PRIORITY,
    STRUCT, TIMER_PRIORITY, VECTOR, VERSION, WAKES,
};
use crate::settings::{CallbackSetting, FunctionSetting, Settings, VectorSetting};
use ck_base::{Op, OutOfMemory};
use std::alloc::Global;
use toml::{Table, Value, table_to_string};

/// The word of the class of an outside function's op.
fn class_word(op: Op) -> &'static str
    ensures { result.now ≡ class_written op }
{
    match op {
        Op::Normal => "normal",
        Op::IQuiet | Op::IWakes => "I",
        Op::SPlain | Op::SWakes => "S",
        Op::Free => "X",
        _ => "neutral",
    }
}

/// Whether a function of this op may wake a thread.
fn may_wake(op: Op) -> bool
    ensures { result ≡ wakes_written op }
{
    matches!(op, Op::IWakes | Op::SWakes)
}

/// Puts a value at a key of a table.
fn put(alloc: Global, table: &mut Table, key: &str, value: Value) -> Result<(), OutOfMemory>
    ensures { OnOk result (table_view table.new ≡ put_member key.now (view value) (table_view table.old)) }
{
    let key = String::from_str(alloc, key)?;
    table.insert(key, value)?;
    Ok(())
}

/// A text as a value.
fn text_value(alloc: Global, text: &str) -> Result<Value, OutOfMemory>
    ensures { IfOk result (λ v. view v ≡ string text.now) }
{
    Ok(Value::String(String::from_str(alloc, text)?))
}

/// A vector as a table.
fn vector_table(alloc: Global, vector: &VectorSetting) -> Result<Value, OutOfMemory>
    ensures { IfOk result (λ v. view v ≡ table (vector_members (vector_view vector.now))) }
{
    let mut table = Table::new(alloc);
    put(
        alloc,
        &mut table,
        FUNCTION,
        text_value(alloc, vector.function.as_str())?,
    )?;
    put(
        alloc,
        &mut table,
        PRIORITY,
        Value::Integer(i64::from(vector.priority)),
    )?;
    Ok(Value::Table(table))
}

/// A callback as a table.
fn callback_table(alloc: Global, callback: &CallbackSetting) -> Result<Value, OutOfMemory>
    ensures { IfOk result (λ v. view v ≡ table (callback_members (callback_view callback.now))) }
{
    let mut table = Table::new(alloc);
    put(
        alloc,
        &mut table,
        STRUCT,
        text_value(alloc, callback.of_struct.as_str())?,
    )?;
    put(
        alloc,
        &mut table,
        MEMBER,
        text_value(alloc, callback.member.as_str())?,
    )?;
    put(
        alloc,
        &mut table,
        PRIORITY,
        Value::Integer(i64::from(callback.priority)),
    )?;
    put(alloc, &mut table, LOCKED, Value::Boolean(callback.locked))?;
    Ok(Value::Table(table))
}

/// An outside function as a table.
fn function_table(alloc: Global, function: &FunctionSetting) -> Result<Value, OutOfMemory>
    ensures { IfOk result (λ v. view v ≡ table (function_members (function_view function.now))) }
{
    let mut table = Table::new(alloc);
    put(
        alloc,
        &mut table,
        NAME,
        text_value(alloc, function.name.as_str())?,
    )?;
    put(
        alloc,
        &mut table,
        CLASS,
        text_value(alloc, class_word(function.op))?,
    )?;
    put(
        alloc,
        &mut table,
        WAKES,
        Value::Boolean(may_wake(function.op)),
    )?;
    Ok(Value::Table(table))
}

/// The vectors as a list of tables.
fn vector_tables(alloc: Global, vectors: &[VectorSetting]) -> Result<Value, OutOfMemory>
    ensures { IfOk result (λ v. view v ≡ tables vector_members (map vector_view vectors.now)) }
{
    let mut values = Vec::new(alloc);
    'settings: for vector in vectors {
        let value = vector_table(alloc, vector)?;
        values.push(value)?;
    }
    Ok(Value::Array(values))
}

/// The callbacks as a list of tables.
fn callback_tables(alloc: Global, callbacks: &[CallbackSetting]) -> Result<Value, OutOfMemory>
    ensures { IfOk result (λ v. view v ≡ tables callback_members (map callback_view callbacks.now)) }
{
    let mut values = Vec::new(alloc);
    'settings: for callback in callbacks {
        let value = callback_table(alloc, callback)?;
        values.push(value)?;
    }
    Ok(Value::Array(values))
}

/// The outside functions as a list of tables.
fn function_tables(alloc: Global, functions: &[FunctionSetting]) -> Result<Value, OutOfMemory>
    ensures { IfOk result (λ v. view v ≡ tables function_members (map function_view functions.now)) }
{
    let mut values = Vec::new(alloc);
    'settings: for function in functions {
        let value = function_table(alloc, function)?;
        values.push(value)?;
    }
    Ok(Value::Array(values))
}

/// The settings as the table of a document of version 2.
fn upgraded_table(alloc: Global, settings: &Settings) -> Result<Table, OutOfMemory>
    ensures { IfOk result (λ t. table_view t ≡ upgraded_members (settings_view settings.now)) }
{
    let mut table = Table::new(alloc);
    put(
        alloc,
        &mut table,
        VERSION,
        Value::Integer(i64::from(LAST_VERSION)),
    )?;
    put(
        alloc,
        &mut table,
        KERNEL_PRIORITY,
        Value::Integer(i64::from(settings.kernel_priority)),
    )?;
    put(
        alloc,
        &mut table,
        TIMER_PRIORITY,
        Value::Integer(i64::from(settings.timer_priority)),
    )?;
    put(
        alloc,
        &mut table,
        VECTOR,
        vector_tables(alloc, &settings.vectors)?,
    )?;
    put(
        alloc,
        &mut table,
        CALLBACK,
        callback_tables(alloc, &settings.callbacks)?,
    )?;
    put(
        alloc,
        &mut table,
        FUNCTION,
        function_tables(alloc, &settings.functions)?,
    )?;
    Ok(table)
}

/// The text of a document of version 2 that says what the settings are: `read_settings` of it, where
/// it finds memory, gives these settings with version 2. The settings are ones that `read_settings`
/// gave, or other valid ones.
pub fn upgraded(alloc: Global, settings: &Settings) -> Result<Vec<u8>, OutOfMemory>
    requires { AreValid (settings_view settings.now) }
    ensures { IfOk result (λ text. settings_of text.items ≡ Ok (upgraded_values (settings_view settings.now))) }
{
    let table = upgraded_table(alloc, settings)?;
    match table_to_string(alloc, &table) {
        Ok(text) => Ok(text.into_bytes()),
        Err(_) => Err(OutOfMemory),
    }
}
