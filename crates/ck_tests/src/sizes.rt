//! The greatest file, and the one that is a byte larger.
use crate::outside::{AMPLE, Sink, answer};
use std::alloc::Global;
use std::test::Fail;

/// How many spaces `main.i` has, and the report, of status 2.
const SPACES: [(usize, &str); 2] = [
    (
        1_048_576,
        "rtcheck 1\nunsupported U7 main.i:1:1048577 syntax\n",
    ),
    (1_048_577, "rtcheck 1\nunsupported U25 main.i too large\n"),
];

/// Whether so many spaces are refused with this report.
fn is_right(alloc: Global, count: usize, report: &str) -> Result<bool, Fail> {
    let bytes = vec![in alloc; b' '; count]?;
    let sink = Sink {
        capacity: AMPLE,
        most: AMPLE,
        fails: 0,
    };
    let (status, taken) = answer(alloc, &["rtcheck", "check"], &bytes, 0, sink)?;
    Ok(status == 2 && taken.as_slice() == report.as_bytes())
}

#[test]
fn the_greatest_file(rt: HostRuntime) -> Result<(), Fail> {
    for (count, report) in SPACES {
        assert!(rt; is_right(rt.alloc(), count, report)?, "{count} spaces");
    }
    Ok(())
}
