// Roots, and when a message is tried again.

use retry_schedule::{next_retry, root};

/// Numbers and their roots: a square less one, a square, a square and one more, and u64's last value.
const ROOTS: [(u64, u64); 14] = [
    (0, 0),
    (1, 1),
    (2, 1),
    (3, 1),
    (4, 2),
    (5, 2),
    (249_999_999_999, 499_999),
    (250_000_000_000, 500_000),
    (250_000_000_001, 500_000),
    // Squares less one that a float takes for the square.
    (4_503_599_761_588_224, 67_108_864),
    (18_446_744_065_119_617_024, 4_294_967_294),
    (18_446_744_065_119_617_025, 4_294_967_295),
    (18_446_744_065_119_617_026, 4_294_967_295),
    (18_446_744_073_709_551_615, 4_294_967_295),
];

/// Birth, now, skip, and when it is tried again.
const RETRIES: [(u64, u64, u64, u64); 7] = [
    (1000, 1000, 20, 1400),
    (1000, 1399, 20, 2521),
    (1000, 1400, 20, 2600),
    (1000, 1000, 10, 1100),
    // Born later than now.
    (1000, 7, 10, 1100),
    (0, 250_000_000_000, 20, 250_020_000_400),
    (250_000_000_000, 250_000_000_000, 0, 250_000_000_000),
];

/// Whether the row is so; a row out of range isn't.
fn is_retry(row: &(u64, u64, u64, u64)) -> bool {
    row.0 <= 250_000_000_000
        && row.1 <= 250_000_000_000
        && row.2 <= 20
        && next_retry(row.0, row.1, row.2) == row.3
}

#[test]
fn roots(rt: HostRuntime) {
    for (number, greatest) in &ROOTS {
        assert_eq!(rt; root(*number), *greatest, "{number}");
    }
}

#[test]
fn retries(rt: HostRuntime) {
    for row in &RETRIES {
        assert!(rt; is_retry(row), "{row:?}");
    }
}
