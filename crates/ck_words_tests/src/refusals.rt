//! The numbers and the words of refusals.
use ck_base::Unsupported::{self, U1, U7, U13, U25, U26, U28};
use ck_base::{number, words};

const REFUSALS: [(Unsupported, u8, &str); 6] = [
    (U1, 1, "bad byte"),
    (U7, 7, "syntax"),
    (U13, 13, "kernel name outside the table"),
    (U25, 25, "too large"),
    (U26, 26, "status outside the subset"),
    (U28, 28, "more than 255 mutexes"),
];

#[test]
fn numbers_and_words_of_refusals(rt: HostRuntime) {
    for (kind, value, says) in REFUSALS {
        assert!(rt; number(&kind) == value && words(&kind) == says, "{says}");
    }
}
