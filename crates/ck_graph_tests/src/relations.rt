//! Relations on numbers below 16: union, composition and image.
use ck_rows::{Rows, add_pair, compose, image, no_pairs, union_into};

/// The relation with these pairs of numbers below 16.
fn relation(pairs: &[(usize, usize)]) -> Rows {
    let mut rows = no_pairs();
    for (from, to) in pairs {
        if *from < 16 && *to < 16 {
            add_pair(&mut rows, *from, *to);
        }
    }
    rows
}

type Pairs = &'static [(usize, usize)];

/// Each number with itself.
const SAME: Pairs = &[
    (0, 0),
    (1, 1),
    (2, 2),
    (3, 3),
    (4, 4),
    (5, 5),
    (6, 6),
    (7, 7),
    (8, 8),
    (9, 9),
    (10, 10),
    (11, 11),
    (12, 12),
    (13, 13),
    (14, 14),
    (15, 15),
];

/// Two relations, and their composition, the first one first.
const COMPOSITIONS: [(Pairs, Pairs, Pairs); 5] = [
    (&[(0, 1), (0, 2)], &[(1, 3), (2, 0)], &[(0, 0), (0, 3)]),
    (SAME, &[(1, 3), (2, 0)], &[(1, 3), (2, 0)]),
    (&[(1, 3), (2, 0)], SAME, &[(1, 3), (2, 0)]),
    (
        &[(0, 1), (0, 2), (15, 15)],
        &[(1, 3), (2, 3), (4, 5), (15, 0)],
        &[(0, 3), (15, 0)],
    ),
    (&[(0, 1), (0, 2), (15, 15)], &[], &[]),
];

#[test]
fn compositions_and_images(rt: HostRuntime) {
    for (first, second, both) in COMPOSITIONS {
        let (first, second, both) = (relation(first), relation(second), relation(both));
        assert!(rt; compose(&first, &second) == both && image(&first, &second.mask) == both);
    }
}

/// Two relations, whether the second adds a pair to the first, and their union.
const UNIONS: [(Pairs, Pairs, bool, Pairs); 3] = [
    (
        &[(1, 3), (2, 0)],
        &[(1, 3), (2, 0)],
        false,
        &[(1, 3), (2, 0)],
    ),
    (&[(0, 1), (0, 2)], &[(0, 2)], false, &[(0, 1), (0, 2)]),
    (
        &[(0, 1), (15, 15)],
        &[(0, 2), (7, 7), (0, 1)],
        true,
        &[(0, 1), (0, 2), (7, 7), (15, 15)],
    ),
];

#[test]
fn unions(rt: HostRuntime) {
    for (first, second, grows, both) in UNIONS {
        let mut union = relation(first);
        let grew = union_into(&mut union, &relation(second));
        assert!(rt; grew == grows && union == relation(both));
    }
}
