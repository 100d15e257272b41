// Coders at the edges, words and received words by hand.
use crate::Threefold;
use coder::{Coder, Misfit, Refusal, Undecoded};
use std::test::Fail;

const HUGE: usize = usize::MAX;

// Accepted, or the refusal's number.
fn judged(answer: Result<Threefold, Refusal>) -> Result<(), u8> {
    answer.map(|_| ()).map_err(Refusal::number)
}

#[test]
fn coders_at_the_edges(rt: HostRuntime) -> Result<(), Fail> {
    for (frame, check, answer) in [
        (2, 0, Err(1)),
        (3, 0, Ok(())),
        (85, 0, Ok(())),
        (86, 0, Err(1)),
        (3, 1, Err(1)),
        (85, 1, Err(1)),
        (0, 0, Err(1)),
        (HUGE, 0, Err(1)),
        (3, HUGE, Err(1)),
    ] {
        assert_eq!(rt; judged(Threefold::new(frame, check)), answer);
    }
    let sizes = Threefold::new(85, 0)?.sizes();
    assert_eq!(rt; (sizes.frame, sizes.word, sizes.repairs), (85, 255, 1));
    let sizes = Threefold::new(3, 0)?.sizes();
    assert_eq!(rt; (sizes.frame, sizes.word, sizes.repairs), (3, 9, 1));
    Ok(())
}

#[test]
fn words(rt: HostRuntime) -> Result<(), Fail> {
    let coder = Threefold::new(3, 0)?;
    let mut word = [9; 9];
    assert_eq!(rt; coder.encode(&[1, 0, 255], &mut word), Ok(()));
    assert_eq!(rt; word, [1, 0, 255, 1, 0, 255, 1, 0, 255]);
    assert_eq!(rt; coder.encode(&[0, 0, 0], &mut word), Ok(()));
    assert_eq!(rt; word, [0; 9]);
    let long = Threefold::new(85, 0)?;
    let mut word = [0; 255];
    assert_eq!(rt; long.encode(&[7; 85], &mut word), Ok(()));
    assert_eq!(rt; word, [7; 255]);
    Ok(())
}

// A buffer of another length is refused, the message's before the word's, and nothing is written.
#[test]
fn encode_lengths(rt: HostRuntime) -> Result<(), Fail> {
    let coder = Threefold::new(3, 0)?;
    let mut word = [9; 9];
    let mut short = [9; 8];
    assert_eq!(rt; coder.encode(&[1, 2], &mut word), Err(Misfit::Frame));
    assert_eq!(rt; coder.encode(&[1, 2, 3, 4], &mut short), Err(Misfit::Frame));
    assert_eq!(rt; coder.encode(&[1, 2, 3], &mut short), Err(Misfit::Line));
    assert_eq!(rt; word, [9; 9]);
    assert_eq!(rt; short, [9; 8]);
    Ok(())
}

#[test]
fn decode_lengths(rt: HostRuntime) -> Result<(), Fail> {
    let coder = Threefold::new(3, 0)?;
    let word = [9; 9];
    let short = [9; 8];
    let mut message = [5; 3];
    let mut pair = [5; 2];
    let frame = Err(Undecoded::Unfit(Misfit::Frame));
    let line = Err(Undecoded::Unfit(Misfit::Line));
    assert_eq!(rt; coder.decode(&word, &mut pair), frame);
    assert_eq!(rt; coder.decode(&short, &mut pair), frame);
    assert_eq!(rt; coder.decode(&short, &mut message), line);
    assert_eq!(rt; coder.decode(&[9; 10], &mut message), line);
    assert_eq!(rt; coder.decode(&[], &mut message), line);
    assert_eq!(rt; pair, [5; 2]);
    assert_eq!(rt; message, [5; 3]);
    Ok(())
}

// One octet of any copy, at any place, is repaired.
#[test]
fn repaired(rt: HostRuntime) -> Result<(), Fail> {
    let coder = Threefold::new(3, 0)?;
    let word = [1, 2, 3, 1, 2, 3, 1, 2, 3];
    let mut message = [0; 3];
    assert_eq!(rt; coder.decode(&word, &mut message), Ok(0));
    assert_eq!(rt; message, [1, 2, 3]);
    for at in 0..9usize {
        let mut received = word;
        received[at] = 255;
        let mut message = [0; 3];
        assert_eq!(rt; coder.decode(&received, &mut message), Ok(1));
        assert_eq!(rt; message, [1, 2, 3]);
    }
    Ok(())
}

// Two equal faults in two copies of one octet are one fault of another message's word.
#[test]
fn repaired_into_another(rt: HostRuntime) -> Result<(), Fail> {
    let coder = Threefold::new(3, 0)?;
    for received in [
        [1, 7, 3, 1, 7, 3, 1, 2, 3],
        [1, 7, 3, 1, 2, 3, 1, 7, 3],
        [1, 2, 3, 1, 7, 3, 1, 7, 3],
    ] {
        let mut message = [0; 3];
        assert_eq!(rt; coder.decode(&received, &mut message), Ok(1));
        assert_eq!(rt; message, [1, 7, 3]);
    }
    Ok(())
}

// More faults are a loss, also where each octet alone has a majority; the message buffer stays.
#[test]
fn lost(rt: HostRuntime) -> Result<(), Fail> {
    let coder = Threefold::new(3, 0)?;
    for received in [
        // different places, in one copy and in two
        [7, 7, 3, 1, 2, 3, 1, 2, 3],
        [7, 2, 3, 1, 2, 3, 1, 2, 7],
        // all three copies of one octet differ
        [1, 7, 3, 1, 8, 3, 1, 2, 3],
        // every octet differs
        [1, 2, 3, 4, 5, 6, 7, 8, 9],
    ] {
        let mut message = [5; 3];
        let answer = coder.decode(&received, &mut message);
        assert_eq!(rt; answer, Err(Undecoded::Lost));
        assert_eq!(rt; message, [5; 3]);
    }
    assert_eq!(rt; Undecoded::Lost.number(), 8);
    Ok(())
}

// The longest coder: its last octet repaired, its first and last lost.
#[test]
fn longest(rt: HostRuntime) -> Result<(), Fail> {
    let coder = Threefold::new(85, 0)?;
    let mut received = [7; 255];
    let mut message = [0; 85];
    received[254] = 0;
    assert_eq!(rt; coder.decode(&received, &mut message), Ok(1));
    assert_eq!(rt; message, [7; 85]);
    received[0] = 0;
    message = [0; 85];
    assert_eq!(rt; coder.decode(&received, &mut message), Err(Undecoded::Lost));
    assert_eq!(rt; message, [0; 85]);
    Ok(())
}
