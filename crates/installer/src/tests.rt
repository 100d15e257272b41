// Settings at the edges, limits and lines by hand.
use crate::text::line;
use coder::{Refusal, Sizes};
use setting::Setting;
use std::test::Fail;

const HUGE: usize = usize::MAX;

fn reed_solomon(frame: usize, check: usize, block: usize, step: usize) -> Result<Setting, Refusal> {
    Setting::new(Sizes::reed_solomon(frame, check)?, block, step)
}

fn threefold(frame: usize, check: usize) -> Result<Setting, Refusal> {
    Setting::new(Sizes::threefold(frame, check)?, 3, 1)
}

fn other(frame: usize, word: usize, repairs: usize) -> Result<Setting, Refusal> {
    Setting::new(Sizes::of_coder(frame, word, repairs)?, 1, 0)
}

// Accepted, or the refusal's number.
fn judged(answer: Result<Setting, Refusal>) -> Result<(), u8> {
    answer.map(|_| ()).map_err(Refusal::number)
}

#[test]
fn settings_at_the_edges(rt: HostRuntime) {
    // K, R, I, M, and accepted or the refusal
    let cases = [
        (2, 4, 6, 0, Err(1)),
        (3, 2, 5, 0, Ok(())),
        (4, 1, 5, 0, Err(1)),
        (4, 18, 22, 0, Err(1)),
        (239, 16, 255, 0, Ok(())),
        (240, 16, 256, 0, Err(1)),
        (128, 16, 5, 1, Err(2)),
        (128, 16, 0, 1, Err(2)),
        (4, 4, 16, 1, Err(2)),
        (224, 16, 120, 2, Ok(())),
        (224, 16, 120, 3, Err(3)),
        (4, 4, 1, 255, Ok(())),
        (4, 4, 1, 256, Err(3)),
        (2, 4, 0, 256, Err(1)),
        (4, 4, 0, 256, Err(2)),
        (HUGE, 2, 1, 0, Err(1)),
        (3, HUGE, 1, 0, Err(1)),
        (HUGE, HUGE, HUGE, HUGE, Err(1)),
        (4, 4, HUGE, 0, Err(2)),
        (4, 4, 4, HUGE, Err(3)),
    ];
    for (frame, check, block, step, answer) in cases {
        assert_eq!(rt; judged(reed_solomon(frame, check, block, step)), answer);
    }
}

#[test]
fn sizes_of_other_coders(rt: HostRuntime) {
    for (frame, check, answer) in [
        (2, 0, Err(1)),
        (3, 0, Ok(())),
        (85, 0, Ok(())),
        (86, 0, Err(1)),
        (3, 1, Err(1)),
        (HUGE, 0, Err(1)),
    ] {
        assert_eq!(rt; judged(threefold(frame, check)), answer);
    }
    for (frame, word, repairs, answer) in [
        (3, 3, 1, Ok(())),
        (3, 3, 2, Err(1)),
        (11, 15, 7, Ok(())),
        (11, 15, 8, Err(1)),
        (5, 4, 0, Err(1)),
        (2, 9, 1, Err(1)),
        (3, 256, 1, Err(1)),
        (3, 9, HUGE, Err(1)),
    ] {
        assert_eq!(rt; judged(other(frame, word, repairs)), answer);
    }
}

#[test]
fn burst_limits(rt: HostRuntime) -> Result<(), Fail> {
    // K, R, I, M and B
    let cases = [
        (4, 4, 4, 0, 2),
        (4, 4, 4, 1, 5),
        (4, 4, 4, 2, 9),
        (128, 16, 36, 10, 722),
        (128, 16, 48, 5, 578),
        (3, 16, 19, 95, 14448),
    ];
    for (frame, check, block, step, limit) in cases {
        let setting = reed_solomon(frame, check, block, step)?;
        assert_eq!(rt; setting.burst_limit(), limit);
        assert_eq!(rt; setting.limit_side_by_side().unwrap_or(limit), limit);
        assert_eq!(rt; setting.limit_of_wide_steps().unwrap_or(limit), limit);
    }
    Ok(())
}

// Places 0 to 9 hold three octets of the word, so a burst of 10 is too long where two are repaired.
#[test]
fn places_of_a_word(rt: HostRuntime) -> Result<(), Fail> {
    let setting = reed_solomon(4, 4, 4, 2)?;
    let places = [0, 9, 18, 27, 4, 13, 22, 31];
    for (octet, place) in places.iter().enumerate() {
        assert_eq!(rt; setting.line_place(octet), Some(*place));
    }
    assert_eq!(rt; setting.line_place(8), None);
    Ok(())
}

#[test]
fn lines(rt: HostRuntime) -> Result<(), Fail> {
    assert!(rt; line(rt.alloc(), b"\x00\x04\x04\x04\x02")?.as_str() == "8 2 3 9 32 12");
    assert!(rt; line(rt.alloc(), b"\x00\x80\x10\x24\x0a")?.as_str() == "144 4 88 722 12744 6300");
    assert!(rt; line(rt.alloc(), b"\x01\x03\x00\x03\x01")?.as_str() == "9 3 1 1 15 3");
    assert!(rt; line(rt.alloc(), b"\x00\x04\x04\x01\xff")?.as_str() == "8 8 0 2 8 0");
    for input in [
        b"" as &[u8],
        b"\x00\x04\x04\x04",
        b"\x00\x04\x04\x04\x02\x00",
        b"\x02\x04\x04\x04\x02",
        b"\xff\x02\x01\x00\xff",
    ] {
        assert!(rt; line(rt.alloc(), input)?.as_str() == "refused 4");
    }
    assert!(rt; line(rt.alloc(), b"\x01\x03\x02\x00\xff")?.as_str() == "refused 1");
    assert!(rt; line(rt.alloc(), b"\x00\x04\x04\x03\xff")?.as_str() == "refused 2");
    assert!(rt; line(rt.alloc(), b"\x00\xe0\x10\x78\x03")?.as_str() == "refused 3");
    Ok(())
}
