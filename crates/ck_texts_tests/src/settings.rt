//! Faults of the settings, and their texts.
use ck_base::SettingsKind::{
    self, Absent, Missing, NoSuchName, NotToml, OutOfRange, Repeated, TooLong, Unknown, WrongType,
};
use ck_base::{OutOfMemory, SettingsFault};
use ck_texts::settings_text;
use std::alloc::Global;
use std::test::Fail;

const FAULTS: [(&str, SettingsKind, &str); 9] = [
    (
        "rtcheck.toml",
        Absent,
        "rtcheck 1\nsettings rtcheck.toml absent\n",
    ),
    (
        "rtcheck.toml",
        TooLong,
        "rtcheck 1\nsettings rtcheck.toml too long\n",
    ),
    (
        "rtcheck.toml",
        NotToml,
        "rtcheck 1\nsettings rtcheck.toml not TOML\n",
    ),
    ("version", Missing, "rtcheck 1\nsettings version missing\n"),
    ("a b", Unknown, "rtcheck 1\nsettings a b unknown\n"),
    (
        "vector[1]",
        WrongType,
        "rtcheck 1\nsettings vector[1] wrong type\n",
    ),
    (
        "timer_priority",
        OutOfRange,
        "rtcheck 1\nsettings timer_priority out of range\n",
    ),
    (
        "vector[2].function",
        Repeated,
        "rtcheck 1\nsettings vector[2].function repeated\n",
    ),
    (
        "vector[1].function",
        NoSuchName,
        "rtcheck 1\nsettings vector[1].function no such name\n",
    ),
];

/// Whether a fault has this text.
fn has_text(
    alloc: Global,
    key: &str,
    kind: SettingsKind,
    expected: &str,
) -> Result<bool, OutOfMemory> {
    let fault = SettingsFault {
        key: String::from_str(alloc, key)?,
        kind,
    };
    let text = settings_text(alloc, &fault)?;
    Ok(text.as_slice() == expected.as_bytes())
}

#[test]
fn texts_of_settings_faults(rt: HostRuntime) -> Result<(), Fail> {
    for (key, kind, expected) in FAULTS {
        assert!(rt; has_text(rt.alloc(), key, kind, expected)?, "{expected}");
    }
    Ok(())
}
