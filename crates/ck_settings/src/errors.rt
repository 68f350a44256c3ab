//! Why settings weren't read.
ghost use Rattle.std.specs.Prelude.{◌≡◌};
ghost use Rattle.ck_settings.specs.declared.errors.ReadSettingsError.TheVariants.{Memory};

use ck_base::SettingsFault;
use std::alloc::{AllocError, AllocFailed};

/// Why settings weren't read.
#[derive(Debug, Drop)]
pub enum ReadSettingsError {
    /// The document has a fault, and this is the first one.
    Fault(SettingsFault),
    /// Memory ran out.
    Memory,
}

impl From<AllocError> for ReadSettingsError {
    ghost from_gives = { λ _ error. error ≡ Memory };

    fn from(_error: AllocError) -> ReadSettingsError {
        ReadSettingsError::Memory
    }
}

impl<T: Drop> From<AllocFailed<T>> for ReadSettingsError {
    ghost from_gives = { λ _ error. error ≡ Memory };

    fn from(_error: AllocFailed<T>) -> ReadSettingsError {
        ReadSettingsError::Memory
    }
}
