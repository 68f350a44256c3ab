//! The keys of the document and of the elements of its lists, and the limits of their values.

/// The key that a fault of the whole file is told at.
pub const FILE: &str = "rtcheck.toml";

/// The version of the document's form.
pub const VERSION: &str = "version";

/// The priority from which on interrupts may make kernel calls.
pub const KERNEL_PRIORITY: &str = "kernel_priority";

/// The priority of the system timer's interrupt.
pub const TIMER_PRIORITY: &str = "timer_priority";

/// The list of interrupt vectors.
pub const VECTOR: &str = "vector";

/// The list of callbacks.
pub const CALLBACK: &str = "callback";

/// The list of outside functions, and the function of a vector.
pub const FUNCTION: &str = "function";

/// The priority of a vector's or a callback's interrupt.
pub const PRIORITY: &str = "priority";

/// The struct of a callback.
pub const STRUCT: &str = "struct";

/// The member of a callback.
pub const MEMBER: &str = "member";

/// Whether a callback is called inside the critical zone.
pub const LOCKED: &str = "locked";

/// The name of an outside function.
pub const NAME: &str = "name";

/// The class of an outside function.
pub const CLASS: &str = "class";

/// Whether an outside function may wake a thread.
pub const WAKES: &str = "wakes";

/// The keys of the document.
pub const DOCUMENT_KEYS: [&str; 6] = [
    VERSION,
    KERNEL_PRIORITY,
    TIMER_PRIORITY,
    VECTOR,
    CALLBACK,
    FUNCTION,
];

/// The keys of an element of `vector`.
pub const VECTOR_KEYS: [&str; 2] = [FUNCTION, PRIORITY];

/// The keys of an element of `callback` in version 1.
pub const CALLBACK_KEYS_1: [&str; 3] = [STRUCT, MEMBER, PRIORITY];

/// The keys of an element of `callback` in version 2.
pub const CALLBACK_KEYS_2: [&str; 4] = [STRUCT, MEMBER, PRIORITY, LOCKED];

/// The keys of an element of `function`.
pub const FUNCTION_KEYS: [&str; 3] = [NAME, CLASS, WAKES];

/// The last version of the document's form, in which callbacks have the key `locked`.
pub const LAST_VERSION: u8 = 2;

/// The greatest priority of an interrupt.
pub const GREATEST_PRIORITY: u8 = 255;

/// How many elements `vector` and `callback` have at most, together.
pub const MOST_HANDLERS: usize = 240;
