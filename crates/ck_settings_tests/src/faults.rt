//! Settings documents with a fault, and which of their faults is the first.
use ck_settings::SettingsKind::{self, Missing, NotToml, OutOfRange, Repeated, Unknown, WrongType};
use ck_settings::{ReadSettingsError, read_settings};
use std::alloc::Global;
use std::test::Fail;

/// Documents that begin alike, and whose first faults have keys that begin alike: the rest of each
/// document, the rest of its key, and the kind of the fault.
#[derive(Clone, Copy)]
struct Table {
    start: &'static str,
    key: &'static str,
    rows: &'static [(&'static str, &'static str, SettingsKind)],
}

/// A needed key that isn't there.
const MISSING: Table = Table {
    start: "",
    key: "",
    rows: &[
        ("", "version", Missing),
        ("# nothing\n", "version", Missing),
        ("version = 1", "kernel_priority", Missing),
        ("version = 2", "kernel_priority", Missing),
        ("kernel_priority = 1", "version", Missing),
    ],
};

/// Not TOML.
const NOT_TOML: Table = Table {
    start: "",
    key: "rtcheck.toml",
    rows: &[
        ("version", "", NotToml),
        ("version = ", "", NotToml),
        ("version = 1 2", "", NotToml),
        ("version = 1\nversion = 1", "", NotToml),
        ("version = 01", "", NotToml),
        ("version = 9223372036854775808", "", NotToml),
        ("[vector]\n[[vector]]", "", NotToml),
        ("\u{e9} = 1", "", NotToml),
    ],
};

/// Unknown keys, the first one in byte order, before all else.
const UNKNOWN: Table = Table {
    start: "",
    key: "",
    rows: &[
        ("verson = 1", "verson", Unknown),
        ("b = 1\na = 1\nversion = 7", "a", Unknown),
        ("_ = 1\na = 1\nZ = 1", "Z", Unknown),
        ("aa = 1\na = 1", "a", Unknown),
        ("a = 1\n\"\" = 1", "", Unknown),
        ("\"a b\" = 1", "a b", Unknown),
        ("\"\u{e9}\" = 1\nz = 1", "z", Unknown),
        ("\"\u{e9}\" = 1", "\u{e9}", Unknown),
        ("[settings]\nversion = 1", "settings", Unknown),
        ("Version = 1", "Version", Unknown),
        ("unknown = 1\n[[vector]]\nunknown = 1", "unknown", Unknown),
    ],
};

/// `version`.
const VERSION: Table = Table {
    start: "",
    key: "version",
    rows: &[
        ("version = \"1\"", "", WrongType),
        ("version = 1.0", "", WrongType),
        ("version = true", "", WrongType),
        ("version = 1979-05-27", "", WrongType),
        ("version = [1]", "", WrongType),
        ("version = [[1]]", "", WrongType),
        ("[version]", "", WrongType),
        ("version.number = 1", "", WrongType),
        ("version = 0", "", OutOfRange),
        ("version = 3", "", OutOfRange),
        ("version = -1", "", OutOfRange),
        ("version = 257", "", OutOfRange),
    ],
};

/// `kernel_priority`.
const KERNEL_PRIORITY: Table = Table {
    start: "version = 1\nkernel_priority = ",
    key: "kernel_priority",
    rows: &[
        ("\"\"", "", WrongType),
        ("1e1", "", WrongType),
        ("256", "", OutOfRange),
        ("-1", "", OutOfRange),
        ("9223372036854775807", "", OutOfRange),
        ("-9223372036854775808", "", OutOfRange),
    ],
};

/// Faults at two keys: the first key of the table counts, and not the first of the text.
const TWO_KEYS: Table = Table {
    start: "",
    key: "",
    rows: &[
        (
            "timer_priority = 1\nkernel_priority = \"\"",
            "version",
            Missing,
        ),
        (
            "timer_priority = \"\"\nkernel_priority = 256\nversion = 1",
            "kernel_priority",
            OutOfRange,
        ),
        ("version = 3\nkernel_priority = \"\"", "version", OutOfRange),
        (
            "version = 2\nkernel_priority = \"\"",
            "kernel_priority",
            WrongType,
        ),
        (
            "version = 3\nkernel_priority = 2\n[[callback]]\nlocked = true",
            "version",
            OutOfRange,
        ),
        (
            "function = 1\ncallback = 1\nvector = 1\nversion = 1\nkernel_priority = 0",
            "vector",
            WrongType,
        ),
        (
            "function = 1\ncallback = 1\nversion = 1\nkernel_priority = 0",
            "callback",
            WrongType,
        ),
        (
            "vector = 1\ntimer_priority = 1\nversion = 1\nkernel_priority = 2",
            "timer_priority",
            OutOfRange,
        ),
        ("vector = 1\nversion = 1", "kernel_priority", Missing),
    ],
};

/// `timer_priority`.
const TIMER_PRIORITY: Table = Table {
    start: "\
        version = 1\n\
        kernel_priority = 2\n\
        timer_priority = ",
    key: "timer_priority",
    rows: &[
        ("\"3\"", "", WrongType),
        ("2.0", "", WrongType),
        ("1", "", OutOfRange),
        ("256", "", OutOfRange),
        ("-2", "", OutOfRange),
    ],
};

/// Lists that are none, and elements that are no tables.
const NO_LISTS: Table = Table {
    start: "\
        version = 1\n\
        kernel_priority = 2\n",
    key: "",
    rows: &[
        ("vector = 1", "vector", WrongType),
        ("vector = {}", "vector", WrongType),
        (
            "[vector]\nfunction = \"f\"\npriority = 1",
            "vector",
            WrongType,
        ),
        ("callback = \"\"", "callback", WrongType),
        ("function = false", "function", WrongType),
        ("vector = [1]", "vector[1]", WrongType),
        (
            "vector = [{function = \"f\", priority = 1}, []]",
            "vector[2]",
            WrongType,
        ),
        ("callback = [[]]", "callback[1]", WrongType),
        ("function = [\"f\"]", "function[1]", WrongType),
    ],
};

/// The priority of a vector.
const VECTOR_PRIORITY: Table = Table {
    start: "\
        version = 1\n\
        kernel_priority = 2\n\
        [[vector]]\n\
        function = \"f\"\n\
        priority = ",
    key: "vector[1].priority",
    rows: &[
        ("\"1\"", "", WrongType),
        ("[[1]]", "", WrongType),
        ("07:32:00", "", WrongType),
        ("inf", "", WrongType),
        ("256", "", OutOfRange),
        ("-1", "", OutOfRange),
    ],
};

/// An element of `vector`.
const VECTOR: Table = Table {
    start: "\
        version = 1\n\
        kernel_priority = 2\n\
        [[vector]]\n",
    key: "vector[1].",
    rows: &[
        ("", "function", Missing),
        ("function = 1", "function", WrongType),
        ("function = [\"f\"]", "function", WrongType),
        ("function = \"\"", "function", OutOfRange),
        ("function = \"f\"", "priority", Missing),
        ("struct = \"s\"", "struct", Unknown),
        ("b = 1\na = 1", "a", Unknown),
        ("[vector.fast]", "fast", Unknown),
        ("\"x.y\" = 1", "x.y", Unknown),
    ],
};

/// An element of `callback`.
const CALLBACK: Table = Table {
    start: "\
        version = 1\n\
        kernel_priority = 2\n\
        [[callback]]\n",
    key: "callback[1].",
    rows: &[
        ("", "struct", Missing),
        ("struct = true", "struct", WrongType),
        ("struct = \"\"", "struct", OutOfRange),
        ("struct = \"s\"", "member", Missing),
        ("struct = \"s\"\nmember = 1.5", "member", WrongType),
        ("struct = \"s\"\nmember = ''", "member", OutOfRange),
        ("struct = \"s\"\nmember = \"m\"", "priority", Missing),
        ("locked = true", "locked", Unknown),
    ],
};

/// The priority of a callback.
const CALLBACK_PRIORITY: Table = Table {
    start: "\
        version = 1\n\
        kernel_priority = 2\n\
        [[callback]]\n\
        struct = \"s\"\n\
        member = \"m\"\n\
        priority = ",
    key: "callback[1].priority",
    rows: &[
        ("false", "", WrongType),
        ("1", "", OutOfRange),
        ("256", "", OutOfRange),
    ],
};

/// `locked`, which version 2 has, in callbacks alone.
const VERSION_2: Table = Table {
    start: "version = 2\nkernel_priority = 2\n",
    key: "",
    rows: &[
        ("locked = true", "locked", Unknown),
        ("[[vector]]\nlocked = true", "vector[1].locked", Unknown),
        ("[[callback]]\nlocked = 1", "callback[1].struct", Missing),
        ("[[callback]]\nlock = true", "callback[1].lock", Unknown),
    ],
};

/// A callback of version 2, where `locked` comes last.
const LOCKED: Table = Table {
    start: "\
        version = 2\n\
        kernel_priority = 2\n\
        [[callback]]\n\
        struct = \"s\"\n\
        member = \"m\"\n",
    key: "callback[1].",
    rows: &[
        ("locked = true", "priority", Missing),
        ("locked = 1\npriority = 1", "priority", OutOfRange),
        ("locked = 1\npriority = 2", "locked", WrongType),
        ("locked = \"true\"\npriority = 2", "locked", WrongType),
        ("locked = []\npriority = 2", "locked", WrongType),
    ],
};

/// An element of `function`.
const FUNCTION: Table = Table {
    start: "\
        version = 1\n\
        kernel_priority = 2\n\
        [[function]]\n",
    key: "function[1].",
    rows: &[
        ("", "name", Missing),
        ("name = 1", "name", WrongType),
        ("name = \"\"", "name", OutOfRange),
        ("name = \"chSysLock\"", "name", OutOfRange),
        ("name = \"chX\"", "name", OutOfRange),
        ("name = \"CH_IRQ_\"", "name", OutOfRange),
        ("name = \"ch\"", "class", Missing),
        ("name = \"chx\"", "class", Missing),
        ("name = \"ch_X\"", "class", Missing),
        ("name = \"CH_IRQ\"", "class", Missing),
        ("name = \"xchX\"", "class", Missing),
        ("kind = \"\"", "kind", Unknown),
    ],
};

/// The class of an outside function, and what is written after it.
const CLASS: Table = Table {
    start: "\
        version = 1\n\
        kernel_priority = 2\n\
        [[function]]\n\
        name = \"f\"\n\
        class = ",
    key: "function[1].",
    rows: &[
        ("1", "class", WrongType),
        ("\"\"", "class", OutOfRange),
        ("\"i\"", "class", OutOfRange),
        ("\"Normal\"", "class", OutOfRange),
        ("\"I\"\nwakes = 1", "wakes", WrongType),
        ("\"I\"\nwakes = \"true\"", "wakes", WrongType),
        ("\"neutral\"\nwakes = true", "wakes", OutOfRange),
        ("\"normal\"\nwakes = true", "wakes", OutOfRange),
        ("\"X\"\nwakes = true", "wakes", OutOfRange),
        ("\"X\"\nwakes = 0", "wakes", WrongType),
    ],
};

/// Repetitions.
const REPETITIONS: Table = Table {
    start: "\
        version = 1\n\
        kernel_priority = 2\n",
    key: "",
    rows: &[
        (
            "[[vector]]\nfunction = \"f\"\npriority = 1\n[[vector]]\nfunction = \"f\"\npriority = 2",
            "vector[2].function",
            Repeated,
        ),
        (
            "\
                [[vector]]\nfunction = \"f\"\npriority = 1\n\
                [[vector]]\nfunction = \"g\"\npriority = 1\n\
                [[vector]]\nfunction = \"f\"\npriority = 1",
            "vector[3].function",
            Repeated,
        ),
        (
            "\
                [[callback]]\nstruct = \"s\"\nmember = \"m\"\npriority = 2\n\
                [[callback]]\nstruct = \"s\"\nmember = \"m\"\npriority = 3",
            "callback[2].member",
            Repeated,
        ),
        (
            "[[function]]\nname = \"f\"\nclass = \"I\"\n[[function]]\nname = \"f\"\nclass = \"S\"",
            "function[2].name",
            Repeated,
        ),
    ],
};

/// Faults of two kinds in one element: unknown keys, then the fields in order, then the repetition.
const ONE_ELEMENT: Table = Table {
    start: "\
        version = 1\n\
        kernel_priority = 2\n",
    key: "",
    rows: &[
        (
            "[[vector]]\nfunction = 1\nzzz = 1",
            "vector[1].zzz",
            Unknown,
        ),
        ("[[vector]]\nzzz = 1", "vector[1].zzz", Unknown),
        (
            "[[vector]]\npriority = 256\nfunction = \"\"",
            "vector[1].function",
            OutOfRange,
        ),
        (
            "[[callback]]\nmember = 1\npriority = 1",
            "callback[1].struct",
            Missing,
        ),
        (
            "[[function]]\nwakes = 1\nclass = \"\"\nname = \"f\"",
            "function[1].class",
            OutOfRange,
        ),
        (
            "[[vector]]\nfunction = \"f\"\npriority = 1\n[[vector]]\nfunction = \"f\"\npriority = 256",
            "vector[2].priority",
            OutOfRange,
        ),
        (
            "[[vector]]\nfunction = \"f\"\npriority = 1\n[[vector]]\nfunction = \"f\"\npriority = 1\nzzz = 1",
            "vector[2].zzz",
            Unknown,
        ),
        (
            "[[function]]\nname = \"f\"\nclass = \"I\"\n[[function]]\nname = \"f\"\nclass = \"X\"\nwakes = true",
            "function[2].wakes",
            OutOfRange,
        ),
    ],
};

/// Faults in two elements and in two lists: the first element of the first list.
const TWO_ELEMENTS: Table = Table {
    start: "\
        version = 1\n\
        kernel_priority = 2\n",
    key: "",
    rows: &[
        (
            "vector = [{function = \"f\", priority = 256}, {zzz = 1}]",
            "vector[1].priority",
            OutOfRange,
        ),
        (
            "[[function]]\n[[callback]]\n[[vector]]\nfunction = \"f\"\npriority = 1",
            "callback[1].struct",
            Missing,
        ),
        (
            "[[callback]]\nzzz = 1\n[[vector]]\nfunction = \"f\"\npriority = 256",
            "vector[1].priority",
            OutOfRange,
        ),
        (
            "[[function]]\nzzz = 1\n[[callback]]\nstruct = \"\"",
            "callback[1].struct",
            OutOfRange,
        ),
    ],
};

const TABLES: [Table; 19] = [
    MISSING,
    NOT_TOML,
    UNKNOWN,
    VERSION,
    KERNEL_PRIORITY,
    TWO_KEYS,
    TIMER_PRIORITY,
    NO_LISTS,
    VECTOR_PRIORITY,
    VECTOR,
    CALLBACK,
    CALLBACK_PRIORITY,
    VERSION_2,
    LOCKED,
    FUNCTION,
    CLASS,
    REPETITIONS,
    ONE_ELEMENT,
    TWO_ELEMENTS,
];

/// Whether the first fault of these bytes is of this kind, at the key that is written in two parts.
fn is_first_fault(alloc: Global, bytes: &[u8], key: (&str, &str), kind: SettingsKind) -> bool {
    match read_settings(alloc, bytes) {
        Err(ReadSettingsError::Fault(fault)) => {
            let rest = fault.key.as_bytes().strip_prefix(key.0.as_bytes());
            fault.kind == kind && rest == Some(key.1.as_bytes())
        }
        _ => false,
    }
}

/// The first row of a table whose document has another first fault.
fn first_wrong(alloc: Global, table: &Table) -> Result<Option<&'static str>, Fail> {
    for (rest, key, kind) in table.rows {
        let text = format!(in alloc; "{}{rest}", table.start)?;
        if !is_first_fault(alloc, text.as_bytes(), (table.key, *key), *kind) {
            return Ok(Some(*rest));
        }
    }
    Ok(None)
}

#[test]
fn documents_and_their_first_faults(rt: HostRuntime) -> Result<(), Fail> {
    for table in TABLES {
        assert_eq!(rt;
            first_wrong(rt.alloc(), &table)?,
            None,
            "after {}",
            table.start
        );
    }
    Ok(())
}

/// Bytes that are no text.
const NOT_UTF8: [&[u8]; 3] = [b"version = 1\xff", b"# \xc3", b"a = 1 # \xed\xa0\x80"];

#[test]
fn bytes_that_are_no_text(rt: HostRuntime) {
    for bytes in NOT_UTF8 {
        let key = ("rtcheck.toml", "");
        assert!(rt;
            is_first_fault(rt.alloc(), bytes, key, NotToml),
            "at {bytes:?}"
        );
    }
}
