//! The text of a settings fault.
ghost use Rattle.std.specs.Prelude.{◌≡◌, IfOk, string_bytes};
ghost use Rattle.ck_texts.specs.Texts as spec;

use crate::words::push_line;
use ck_base::{OutOfMemory, SettingsFault, SettingsKind};
use std::alloc::Global;

/// The text of a fault in the settings: its key, and what is wrong there (docs/REPORT.md, "Faults in the
/// settings").
pub fn settings_text(alloc: Global, fault: &SettingsFault) -> Result<Vec<u8>, OutOfMemory>
    ensures { IfOk result (λ text. text.items ≡ spec.settings_text (string_bytes fault.now.key) fault.now.kind) }
{
    let mut text = Vec::new(alloc);
    push_line(&mut text, "rtcheck 1")?;
    text.extend_from_slice("settings ".as_bytes())?;
    text.extend_from_slice(fault.key.as_bytes())?;
    text.push(b' ')?;
    push_line(&mut text, settings_words(fault.kind))?;
    Ok(text)
}

/// What is wrong with the settings.
fn settings_words(kind: SettingsKind) -> &'static str
    ensures { result.now ≡ spec.settings_words kind }
{
    match kind {
        SettingsKind::Absent => "absent",
        SettingsKind::TooLong => "too long",
        SettingsKind::NotToml => "not TOML",
        SettingsKind::Missing => "missing",
        SettingsKind::Unknown => "unknown",
        SettingsKind::WrongType => "wrong type",
        SettingsKind::OutOfRange => "out of range",
        SettingsKind::Repeated => "repeated",
        SettingsKind::NoSuchName => "no such name",
    }
}
