//! The settings that the bytes of a file write, or the first fault.
ghost use Rattle.std.specs.Prelude.{IfOk};
ghost use Rattle.toml.specs.View.{table_view};
ghost use Rattle.ck_settings.specs.Values.{settings_view};
ghost use Rattle.ck_settings.specs.Documents.{Gives, IsFault, not_toml, settings_of};
ghost use Rattle.ck_settings.specs.Valid.{AreValid};
ghost use Rattle.ck_settings.specs.Reading.{file, toml};

use crate::document::settings_in;
use crate::errors::ReadSettingsError;
use crate::keys::FILE;
use crate::settings::Settings;
use ck_base::{SettingsFault, SettingsKind};
use std::alloc::Global;
use toml::{Table, table_from_str};

/// The fault that the file isn't TOML.
fn not_toml(alloc: Global) -> ReadSettingsError
    ensures { IsFault result not_toml }
{
    match String::from_str(alloc, FILE) {
        Ok(key) => ReadSettingsError::Fault(SettingsFault {
            key,
            kind: SettingsKind::NotToml,
        }),
        Err(_) => ReadSettingsError::Memory,
    }
}

/// The table of the document that the bytes spell.
#[tactic(auto, unfolding(crate::specs::Reading::toml))]
fn table_in(alloc: Global, bytes: &[u8]) -> Result<Table, ReadSettingsError>
    ensures { Gives table_view result (toml bytes.now) }
{
    let Ok(text) = std::str::from_utf8(bytes) else {
        return Err(not_toml(alloc));
    };
    match table_from_str(alloc, text) {
        Ok(table) => Ok(table),
        Err(error) if error.is_memory() => Err(ReadSettingsError::Memory),
        Err(_) => Err(not_toml(alloc)),
    }
}

/// The settings that the bytes write, read from the first key on.
#[tactic(auto, unfolding(crate::specs::Reading::file))]
fn settings_of_file(alloc: Global, bytes: &[u8]) -> Result<Settings, ReadSettingsError>
    ensures { Gives settings_view result (file bytes.now) }
{
    let table = table_in(alloc, bytes)?;
    settings_in(alloc, &table)
}

/// Reads the settings that `bytes`, the bytes of `rtcheck.toml`, write (docs/SETTINGS.md).
///
/// Where they are TOML and the document has no fault, the answer is its settings, with the defaults
/// for keys that are left out. Else it is the first fault, with its key: NotToml, or of the document
/// Missing, Unknown, WrongType, OutOfRange or Repeated. `Memory` says that memory ran out.
///
/// The settings are valid: version 1 or 2, a timer priority from the kernel's priority on, at most 240
/// vectors and callbacks together, and no element of a list that repeats one before it.
pub fn read_settings(alloc: Global, bytes: &[u8]) -> Result<Settings, ReadSettingsError>
    ensures reads { Gives settings_view result (settings_of bytes.now) }
    ensures valid { IfOk result (λ s. AreValid (settings_view s)) }
{
    settings_of_file(alloc, bytes)
}
