//! How many vectors and callbacks there may be.
use ck_settings::SettingsKind::{self, Missing, OutOfRange, Unknown};
use ck_settings::{ReadSettingsError, read_settings};
use std::alloc::Global;
use std::test::Fail;

/// So many vectors and callbacks, what comes after them, and the first fault, if there is one.
const HANDLERS: [(u32, u32, &str, Option<(&str, SettingsKind)>); 12] = [
    (240, 0, "", None),
    (0, 240, "", None),
    (120, 120, "", None),
    (239, 1, "", None),
    (241, 0, "", Some(("callback", OutOfRange))),
    (0, 241, "", Some(("callback", OutOfRange))),
    (120, 121, "", Some(("callback", OutOfRange))),
    // before the elements of `callback`, and after those of `vector`
    (
        240,
        0,
        "[[callback]]\nz = 1",
        Some(("callback", OutOfRange)),
    ),
    (
        239,
        0,
        "[[callback]]\nz = 1",
        Some(("callback[1].z", Unknown)),
    ),
    (
        241,
        0,
        "[[vector]]\nz = 1",
        Some(("vector[242].z", Unknown)),
    ),
    (241, 0, "[[function]]", Some(("callback", OutOfRange))),
    (240, 0, "[[function]]", Some(("function[1].name", Missing))),
];

/// A document with so many vectors and callbacks, and this after them.
fn document(alloc: Global, vectors: u32, callbacks: u32, rest: &str) -> Result<String, Fail> {
    let mut text = String::from_str(alloc, "version = 1\nkernel_priority = 2\n")?;
    for number in 0..vectors {
        write!(text, "[[vector]]\nfunction = \"v{number}\"\npriority = 0\n")?;
    }
    for number in 0..callbacks {
        write!(
            text,
            "[[callback]]\nstruct = \"s\"\nmember = \"m{number}\"\npriority = 9\n"
        )?;
    }
    text.push_str(rest)?;
    Ok(text)
}

/// Whether a document with so many vectors and callbacks, and this after them, is read, or has this
/// first fault.
fn is_read(
    alloc: Global,
    vectors: u32,
    callbacks: u32,
    rest: &str,
    fault: Option<(&str, SettingsKind)>,
) -> Result<bool, Fail> {
    let text = document(alloc, vectors, callbacks, rest)?;
    match read_settings(alloc, text.as_bytes()) {
        Ok(settings) => Ok(
            fault.is_none()
                && settings.vectors.len() == vectors as usize
                && settings.callbacks.len() == callbacks as usize,
        ),
        Err(ReadSettingsError::Fault(found)) => {
            Ok(fault == Some((found.key.as_str(), found.kind)))
        }
        Err(ReadSettingsError::Memory) => Ok(false),
    }
}

#[test]
fn numbers_of_handlers(rt: HostRuntime) -> Result<(), Fail> {
    for (vectors, callbacks, rest, fault) in HANDLERS {
        let right = is_read(rt.alloc(), vectors, callbacks, rest, fault)?;
        assert!(rt;
            right,
            "{vectors} vectors, {callbacks} callbacks and {rest}"
        );
    }
    Ok(())
}
