//! Which calls have a prototype.
use crate::calls::KernelCall;

/// Which calls have a prototype.
#[derive(Clone, Copy)]
pub(crate) struct Declared {
    pub(crate) init: bool,
    pub(crate) disable: bool,
    pub(crate) suspend: bool,
    pub(crate) enable: bool,
    pub(crate) lock: bool,
    pub(crate) unlock: bool,
}

impl Declared {
    ghost use Rattle.std.specs.Prelude.{◌≡◌};
    ghost use Rattle.ck_cli.specs.Reading.{declared_with, is_declared, none_declared};

    /// None of them.
    pub(crate) fn none() -> Declared
        ensures { result ≡ none_declared }
    {
        Declared {
            init: false,
            disable: false,
            suspend: false,
            enable: false,
            lock: false,
            unlock: false,
        }
    }

    /// These and one more.
    pub(crate) fn with(mut self, call: KernelCall) -> Declared
        ensures { result ≡ declared_with self call }
    {
        match call {
            KernelCall::Init => self.init = true,
            KernelCall::Disable => self.disable = true,
            KernelCall::Suspend => self.suspend = true,
            KernelCall::Enable => self.enable = true,
            KernelCall::Lock => self.lock = true,
            KernelCall::Unlock => self.unlock = true,
        }
        self
    }

    /// Whether the call is one of them.
    pub(crate) fn has(&self, call: KernelCall) -> bool
        ensures { result ≡ is_declared self.now call }
    {
        match call {
            KernelCall::Init => self.init,
            KernelCall::Disable => self.disable,
            KernelCall::Suspend => self.suspend,
            KernelCall::Enable => self.enable,
            KernelCall::Lock => self.lock,
            KernelCall::Unlock => self.unlock,
        }
    }
}
