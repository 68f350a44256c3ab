//! Which names are the kernel's.
ghost use Rattle.std.specs.Prelude.{◌≡◌};
ghost use Rattle.ck_base.specs.KernelNames.{kernel_name};

/// Whether a name is one of the kernel's: it begins with `ch` and an upper-case letter of ASCII, or
/// with `CH_IRQ_`.
pub fn is_kernel_name(name: &str) -> bool
    ensures { result ≡ kernel_name name.now }
{
    let bytes = name.as_bytes();
    let is_call = match bytes {
        [b'c', b'h', letter, ..] => letter.is_ascii_uppercase(),
        _ => false,
    };
    is_call || bytes.starts_with(b"CH_IRQ_".as_slice())
}
