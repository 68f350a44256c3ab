//! The text of the benchmark.
ghost use Rattle.std.specs.Prelude.{◌≡◌, ◌++◌, IfOk, OnOk};
ghost use Rattle.ck_words.specs.BenchText as spec;

use ck_base::OutOfMemory;
use std::alloc::Global;

/// The prototypes, the variable and the function that calls no other of the benchmark.
const FIRST_LINES: &str = "void chSysInit(void);\n\
    void chSysLock(void);\n\
    void chSysUnlock(void);\n\
    int v;\n\
    void f0(void) { chSysLock(); chSysUnlock(); }\n";

/// The text of the one file of the benchmark for a number: a project in which 2 to the power of the
/// number walks lead through its last function (docs/COMMANDS.md, "The benchmark"). It comes for every
/// number, and is refused for want of memory alone.
pub fn bench_text(alloc: Global, number: u32) -> Result<Vec<u8>, OutOfMemory>
    ensures { IfOk result (λ text. text.items ≡ spec.bench_text number) }
{
    let mut text = Vec::new(alloc);
    text.extend_from_slice(FIRST_LINES.as_bytes())?;
    for callee in 0..number {
        push_caller(alloc, &mut text, callee + 1, callee)?;
    }
    let main = format!(in alloc; "int main(void) {{ chSysInit(); f{number}(); }}\n")?;
    text.extend_from_slice(main.as_bytes())?;
    Ok(text)
}

/// Adds the line of a function that calls another on both ways of a test.
fn push_caller(
    alloc: Global,
    text: &mut Vec<u8>,
    caller: u32,
    callee: u32,
) -> Result<(), OutOfMemory>
    ensures { OnOk result (text.new.items ≡ text.old.items ++ spec.line (spec.caller_line caller callee)) }
{
    let line = format!(in alloc;
        "void f{caller}(void) {{ if (v) f{callee}(); else f{callee}(); }}\n"
    )?;
    text.extend_from_slice(line.as_bytes())?;
    Ok(())
}
