//! Long settings documents.
use ck_base::Op;
use ck_settings::{Settings, read_settings};
use std::alloc::Global;
use std::test::Fail;

/// How many functions the long documents have.
const FUNCTIONS: usize = 1_000;

/// A document of 1,000 outside functions, of 40,925 bytes.
fn many_functions(alloc: Global) -> Result<String, Fail> {
    let mut text = String::from_str(alloc, "version = 1\nkernel_priority = 2\n")?;
    for number in 0..FUNCTIONS {
        write!(text, "[[function]]\nname = \"f{number}\"\nclass = \"I\"\n")?;
    }
    Ok(text)
}

/// Whether the settings have these many functions, of one op.
fn has_all(settings: &Settings) -> bool {
    settings.functions.len() == FUNCTIONS
        && settings
            .functions
            .iter()
            .all(|function| function.op == Op::IQuiet)
}

/// Whether the document of many functions is read, with a comment after it that makes it as long.
fn is_read(alloc: Global, length: usize) -> Result<bool, Fail> {
    let mut text = many_functions(alloc)?;
    if text.len() < length {
        text.push('#')?;
    }
    for _ in text.len()..length {
        text.push('.')?;
    }
    match read_settings(alloc, text.as_bytes()) {
        Ok(settings) => Ok(has_all(&settings)),
        Err(_) => Ok(false),
    }
}

/// As it is, and with 65,536 bytes, the most that the program reads.
#[test]
fn a_thousand_functions(rt: HostRuntime) -> Result<(), Fail> {
    for length in [0, 65_536] {
        assert!(rt; is_read(rt.alloc(), length)?, "{length} bytes");
    }
    Ok(())
}
