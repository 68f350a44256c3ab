//! The classes of outside functions.
ghost use Rattle.std.specs.Prelude.{◌≡◌};
ghost use Rattle.ck_settings.specs.Classes.{op_of};

use ck_base::Op;

/// The op of an outside function, by its class and whether it may wake a thread: none where the word
/// is no class, or a function of this class wakes no thread.
pub(crate) fn op_for(class: &str, wakes: bool) -> Option<Op>
    ensures { result ≡ op_of class.now wakes }
{
    match (class, wakes) {
        ("neutral", false) => Some(Op::Neutral),
        ("normal", false) => Some(Op::Normal),
        ("I", false) => Some(Op::IQuiet),
        ("I", true) => Some(Op::IWakes),
        ("S", false) => Some(Op::SPlain),
        ("S", true) => Some(Op::SWakes),
        ("X", false) => Some(Op::Free),
        _ => None,
    }
}
