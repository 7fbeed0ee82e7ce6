//! Refusals in words.

use rr_cli::{end_without_words, print_refusal, status};
use rr_types::Refusal;
use std::alloc::Global;
use std::io;
use std::io::ErrorKind;
use std::process::Abort;

/// Each refusal, by its number, with its exit status and its words.
fn refusals() -> [(Refusal, u8, &'static str); 18] {
    let damaged = Refusal::Damaged {
        area: 0,
        offset: 155,
    };
    [
        (Refusal::OutOfMemory, 6, "OutOfMemory"),
        (Refusal::Device, 5, "Device"),
        (damaged, 4, "Damaged 0 155"),
        (Refusal::Failed, 5, "Failed"),
        (Refusal::Down, 5, "Down"),
        (Refusal::BadNodes, 3, "BadNodes"),
        (Refusal::BadName, 5, "BadName"),
        (Refusal::BadValue, 5, "BadValue"),
        (Refusal::ListFull, 5, "ListFull"),
        (Refusal::RoundsOut, 5, "RoundsOut"),
        (Refusal::Malformed(18), 5, "Malformed 18"),
        (Refusal::StrangeMark, 5, "StrangeMark"),
        (Refusal::Busy, 5, "Busy"),
        (Refusal::BadEvent(7), 3, "BadEvent 7"),
        (Refusal::SeatsTaken, 5, "SeatsTaken"),
        (Refusal::TooLarge, 5, "TooLarge"),
        (Refusal::AuditNo(3), 7, "AuditNo 3"),
        (Refusal::NoGuard, 5, "NoGuard"),
    ]
}

/// Asserts that a refusal has this number and these words in its line.
fn assert_printed(rt: &impl Abort, alloc: Global, number: usize, refusal: &Refusal, words: &str) {
    let mut line = Vec::new(alloc);
    print_refusal(&mut line, refusal).expect(rt, "memory");
    let told = format!(in alloc; "rr: {number} {words}\n").expect(rt, "memory");
    assert!(rt; line.as_slice() == told.as_bytes(), "refusal {number}");
}

/// Asserts that it has these words wherever it is shown.
fn assert_shown(rt: &impl Abort, alloc: Global, refusal: &Refusal, words: &str) {
    let shown = format!(in alloc; "{refusal}").expect(rt, "memory");
    assert_eq!(rt; shown.as_str(), words);
}

#[test]
fn tells_each_refusal_in_the_same_words(rt: HostRuntime) {
    for (index, (refusal, ending, words)) in refusals().iter().enumerate() {
        assert_printed(&rt, rt.alloc(), index + 1, refusal, *words);
        assert_shown(&rt, rt.alloc(), refusal, *words);
        assert_eq!(rt; status(refusal), *ending, "the status of {words}");
    }
}

#[test]
fn tells_words_that_are_no_text(rt: HostRuntime) {
    let mut err = Vec::new(rt.alloc());
    let status = end_without_words(&mut err, &io::Error::new(ErrorKind::InvalidData, "no text"));
    assert_eq!(rt; status, 2);
    assert!(rt; err.as_slice() == b"rr: words: no text\n".as_slice());
}
