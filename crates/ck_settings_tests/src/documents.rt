//! Settings documents without a fault, and what they are read as.
use ck_base::Op::{self, Free, IQuiet, IWakes, Neutral, Normal, SPlain, SWakes};
use ck_settings::{Settings, read_settings, upgraded};
use std::alloc::Global;
use std::test::Fail;

/// Documents with a kernel and a timer priority, and what they are read as.
const PRIORITIES: [(&str, u8, u8); 8] = [
    ("version = 1\nkernel_priority = 2\n", 2, 2),
    ("version = 1\nkernel_priority = 0", 0, 0),
    ("version = 1\nkernel_priority = 255", 255, 255),
    (
        "kernel_priority = 0\ntimer_priority = 255\nversion = 1",
        0,
        255,
    ),
    ("version = 1\nkernel_priority = 7\ntimer_priority = 7", 7, 7),
    (
        "version = 0x1\r\nkernel_priority = +2 # two\r\ntimer_priority = 2_5_5",
        2,
        255,
    ),
    (
        "\u{feff}version = 1\nkernel_priority = 0o17\nvector = []\ncallback = []\nfunction = []",
        15,
        15,
    ),
    ("\"version\" = 1\n'kernel_priority' = -0", 0, 0),
];

/// A document, and what it is read as: the version, the priorities of the kernel and the timer, and the
/// lists in written order, the callbacks with whether they are locked.
#[derive(Clone, Copy)]
struct Document {
    text: &'static str,
    numbers: (u8, u8, u8),
    vectors: &'static [(&'static str, u8)],
    callbacks: &'static [(&'static str, &'static str, u8, bool)],
    functions: &'static [(&'static str, Op)],
}

/// Every key, with the lists in an order of their own.
const WHOLE: Document = Document {
    text: "\
        version = 1\n\
        kernel_priority = 2\n\
        timer_priority = 3\n\
        [[function]]\n\
        name = \"z\"\n\
        class = \"S\"\n\
        wakes = true\n\
        [[vector]]\n\
        function = \"Vector44\"\n\
        priority = 0\n\
        [[callback]]\n\
        struct = \"GPTConfig\"\n\
        member = \"callback\"\n\
        priority = 2\n\
        [[vector]]\n\
        function = \"Vector40\"\n\
        priority = 255\n\
        [[callback]]\n\
        struct = \"GPTConfig\"\n\
        member = \"other\"\n\
        priority = 255\n\
        [[function]]\n\
        name = \"a\"\n\
        class = \"neutral\"\n\
        [[callback]]\n\
        struct = \"Ops\"\n\
        member = \"callback\"\n\
        priority = 6\n",
    numbers: (1, 2, 3),
    vectors: &[("Vector44", 0), ("Vector40", 255)],
    callbacks: &[
        ("GPTConfig", "callback", 2, false),
        ("GPTConfig", "other", 255, false),
        ("Ops", "callback", 6, false),
    ],
    functions: &[("z", SWakes), ("a", Neutral)],
};

/// The settings of examples/gpt-settings.
const EXAMPLE: Document = Document {
    text: "\
        version = 1\n\
        kernel_priority = 2\n\
        [[callback]]\n\
        struct = \"GPTConfig\"\n\
        member = \"callback\"\n\
        priority = 6\n\
        [[function]]\n\
        name = \"gptStart\"\n\
        class = \"normal\"\n\
        [[function]]\n\
        name = \"palToggleLine\"\n\
        class = \"neutral\"\n",
    numbers: (1, 2, 2),
    vectors: &[],
    callbacks: &[("GPTConfig", "callback", 6, false)],
    functions: &[("gptStart", Normal), ("palToggleLine", Neutral)],
};

/// Version 2, which says of a callback whether it is locked.
const SECOND_VERSION: Document = Document {
    text: "\
        version = 2\n\
        kernel_priority = 2\n\
        [[callback]]\n\
        struct = \"Ops\"\n\
        member = \"done\"\n\
        priority = 5\n\
        locked = true\n\
        [[callback]]\n\
        struct = \"Ops\"\n\
        member = \"failed\"\n\
        locked = false\n\
        priority = 5\n\
        [[callback]]\n\
        struct = \"Ops\"\n\
        member = \"open\"\n\
        priority = 5\n",
    numbers: (2, 2, 2),
    vectors: &[],
    callbacks: &[
        ("Ops", "done", 5, true),
        ("Ops", "failed", 5, false),
        ("Ops", "open", 5, false),
    ],
    functions: &[],
};

/// Whether these are the settings' version and the priorities of the kernel and the timer.
fn has_numbers(settings: &Settings, numbers: (u8, u8, u8)) -> bool {
    settings.version == numbers.0
        && settings.kernel_priority == numbers.1
        && settings.timer_priority == numbers.2
}

/// Whether these are the settings' vectors, in order.
fn has_vectors(settings: &Settings, rows: &[(&str, u8)]) -> bool {
    settings.vectors.len() == rows.len()
        && settings.vectors.iter().zip(rows).all(|(vector, row)| vector.function.as_str() == row.0
            && vector.priority == row.1)
}

/// Whether these are the settings' callbacks, in order.
fn has_callbacks(settings: &Settings, rows: &[(&str, &str, u8, bool)]) -> bool {
    settings.callbacks.len() == rows.len()
        && settings.callbacks.iter().zip(rows).all(|(callback, row)| {
            callback.of_struct.as_str() == row.0
                && callback.member.as_str() == row.1
                && callback.priority == row.2
                && callback.locked == row.3
        })
}

/// Whether these are the settings' outside functions, in order.
pub fn has_functions(settings: &Settings, rows: &[(&str, Op)]) -> bool {
    settings.functions.len() == rows.len()
        && settings.functions.iter().zip(rows).all(|(function, row)| function.name.as_str() == row.0
            && function.op == row.1)
}

/// Whether a text is read as this and no more: the numbers, and the lists of a document.
fn is_read_as(alloc: Global, text: &[u8], numbers: (u8, u8, u8), lists: &Document) -> bool {
    match read_settings(alloc, text) {
        Ok(settings) => {
            has_numbers(&settings, numbers)
                && has_vectors(&settings, lists.vectors)
                && has_callbacks(&settings, lists.callbacks)
                && has_functions(&settings, lists.functions)
        }
        Err(_) => false,
    }
}

/// No lists.
const EMPTY: Document = Document {
    text: "",
    numbers: (0, 0, 0),
    vectors: &[],
    callbacks: &[],
    functions: &[],
};

#[test]
fn priorities_and_their_default(rt: HostRuntime) {
    for (text, kernel, timer) in PRIORITIES {
        let right = is_read_as(rt.alloc(), text.as_bytes(), (1, kernel, timer), &EMPTY);
        assert!(rt; right, "at {text}");
    }
}

/// Whether the settings of a document, written as one of version 2, are read as they were.
fn is_upgraded(alloc: Global, document: &Document) -> Result<bool, Fail> {
    let (_, kernel, timer) = document.numbers;
    match read_settings(alloc, document.text.as_bytes()) {
        Ok(settings) => {
            let text = upgraded(alloc, &settings)?;
            Ok(is_read_as(alloc, &text, (2, kernel, timer), document))
        }
        Err(_) => Ok(false),
    }
}

/// As they are, and written as documents of version 2.
#[test]
fn whole_documents(rt: HostRuntime) -> Result<(), Fail> {
    for document in [WHOLE, EXAMPLE, SECOND_VERSION] {
        let text = document.text.as_bytes();
        let right = is_read_as(rt.alloc(), text, document.numbers, &document)
            && is_upgraded(rt.alloc(), &document)?;
        assert!(rt; right, "at {}", document.text);
    }
    Ok(())
}

/// A class, what is written after it, and the op.
const CLASSES: [(&str, &str, Op); 11] = [
    ("neutral", "", Neutral),
    ("normal", "", Normal),
    ("I", "", IQuiet),
    ("S", "", SPlain),
    ("X", "", Free),
    ("neutral", "wakes = false", Neutral),
    ("X", "wakes = false", Free),
    ("I", "wakes = false", IQuiet),
    ("S", "wakes = false", SPlain),
    ("I", "wakes = true", IWakes),
    ("S", "wakes = true", SWakes),
];

/// Whether one outside function of this class is read with this op.
fn has_op(alloc: Global, class: &str, wakes: &str, op: Op) -> Result<bool, Fail> {
    let start = "version = 1\nkernel_priority = 2\n[[function]]\nname = \"f\"\n";
    let text = format!(in alloc; "{start}class = \"{class}\"\n{wakes}\n")?;
    match read_settings(alloc, text.as_bytes()) {
        Ok(settings) => Ok(has_functions(&settings, &[("f", op)])),
        Err(_) => Ok(false),
    }
}

#[test]
fn classes_and_their_ops(rt: HostRuntime) -> Result<(), Fail> {
    for (class, wakes, op) in CLASSES {
        let right = has_op(rt.alloc(), class, wakes, op)?;
        assert!(rt; right, "at {class} {wakes}");
    }
    Ok(())
}
