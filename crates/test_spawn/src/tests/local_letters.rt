// Letters of local deliveries.

use local_spawn::letter_of_status;
use outside::Status;

/// The statuses that mean a later try.
const LATER: [u8; 5] = [51, 71, 74, 75, 111];

/// The letter that is expected of an exit status.
fn expected(code: u8) -> u8 {
    match code {
        0 => b'K',
        _ if LATER.contains(&code) => b'Z',
        _ => b'D',
    }
}

#[test]
fn statuses_have_their_letters(rt: HostRuntime) {
    for code in 0..=255u8 {
        assert!(rt;
            letter_of_status(Status::Ended(code)) == expected(code),
            "{code}"
        );
    }
    assert!(rt; letter_of_status(Status::Crashed) == b'Z');
    assert!(rt; letter_of_status(Status::Failed) == b'Z');
}
