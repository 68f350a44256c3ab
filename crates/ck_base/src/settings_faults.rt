//! What is wrong with the settings file, and at which key.

/// What is wrong with `rtcheck.toml` (docs/SETTINGS.md, "The faults").
#[derive(Clone, Copy, Debug, PartialEq, Eq)]
pub enum SettingsKind {
    /// The folder has no such file.
    Absent,
    /// It has more bytes than are read.
    TooLong,
    /// It is no TOML.
    NotToml,
    /// A key that has to be there isn't.
    Missing,
    /// A key is none of the settings'.
    Unknown,
    /// A value is of another type.
    WrongType,
    /// A value of the right type isn't one of those that may be.
    OutOfRange,
    /// An element of a list says again what an earlier one says.
    Repeated,
    /// A name names nothing in the project.
    NoSuchName,
}

/// A fault of the settings file, with the key where it is: `timer_priority`, or
/// `vector[1].function` for a key of the first element of a list, or `rtcheck.toml` for the whole
/// file.
#[derive(Debug, Drop)]
pub struct SettingsFault {
    pub key: String,
    pub kind: SettingsKind,
}
