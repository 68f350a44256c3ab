//! Reads the settings of a project, the file `rtcheck.toml`, and writes them in the newest version.
//!
//! In: the bytes of the file. Out: its settings with the defaults filled in, or its first fault and
//! the key where it is. The definitions that rule it are `specs/Keys.antt` (the table of keys, in the
//! order of their faults), `specs/Classes.antt` (the classes of outside functions), `specs/Faults.antt`
//! (all faults of a document in order), `specs/Values.antt` (the values that it writes) and
//! `specs/Documents.antt` (what a file says); `specs/Valid.antt` says what callers may rely on. Which
//! text is which document is `toml`'s own definition. `specs/Lib.antt` has the order in which they are
//! read. docs/SETTINGS.md has it all in plain words.
//!
//! It must not know: the program, the folder, and what the names in the settings name.
#![tactic(auto)]

mod classes;
mod document;
mod errors;
mod keys;
mod lists;
mod read;
mod section;
mod settings;
mod upgrade;

pub use ck_base::{SettingsFault, SettingsKind};
pub use errors::ReadSettingsError;
pub use read::read_settings;
pub use settings::{CallbackSetting, FunctionSetting, Settings, VectorSetting};
pub use upgrade::upgraded;
