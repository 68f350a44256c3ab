//! The words that every part of the checker speaks: files, spans and numbers of things, the ops of kernel
//! calls, the system states with what a call does in them, the refusals, the faults of a settings file.
//!
//! In: nothing. Out: plain types, `number` and `words` of a refusal, which names are the kernel's, and
//! the law that ties the state table to the kernel's own checks. The definitions that rule it are
//! `specs/Act.antt` (the state table of docs/STATES.md), `specs/Counters.antt` (the kernel's eleven
//! checks on its two counters, and its status pair), `specs/Refusals.antt` and `specs/KernelNames.antt`.
//! `specs/TokenText.antt`, `specs/IntegerConstants.antt`, `specs/CharacterConstants.antt` (the values of
//! constants by their bytes, C99 6.4.4 and 6.4.5) and `specs/Characters.antt` are for the crates above.
//!
//! It must not know: files, what C means, how settings are read, and how anything is computed.
#![tactic(auto)]

mod events;
mod files;
mod kernel_names;
mod laws;
mod ops;
mod refusals;
mod settings_faults;
mod spans;
mod states;
mod tokens;

pub use events::Event;
pub use files::SourceFile;
pub use kernel_names::is_kernel_name;
pub use laws::table_follows_the_kernel;
pub use ops::Op;
pub use refusals::{Fault, OutOfMemory, Refusal, Spot, Unsupported, number, words};
pub use settings_faults::{SettingsFault, SettingsKind};
pub use spans::{FnId, PointId, RowId, SlotId, Span};
pub use states::{Kind, Outcome, State};
pub use tokens::{Token, TokenKind};
