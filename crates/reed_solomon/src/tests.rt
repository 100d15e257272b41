// Words by hand and from another coder, the edges of the sizes, and the refusals by length.
use crate::reed_solomon::ReedSolomon;
use coder::{Coder, Misfit, Refusal, Undecoded};
use field::{Field, OctetField, Shifting, Table};
use std::process::Abort;
use std::test::Fail;

// K, N and t of a coder, or the refusal's number.
fn numbers<F: Field>(frame: usize, check: usize) -> Result<(usize, usize, usize), u8> {
    ReedSolomon::<F>::new(frame, check)
        .map(|coder| (coder.sizes.frame, coder.sizes.word, coder.sizes.repairs))
        .map_err(Refusal::number)
}

#[test]
fn sizes(rt: HostRuntime) {
    // K and R, and N and t or the refusal's number
    let rows = [
        (3, 0, Ok((3, 0))),
        (3, 1, Err(1)),
        (3, 2, Ok((5, 1))),
        (3, 16, Ok((19, 8))),
        (3, 18, Err(1)),
        (2, 2, Err(1)),
        (255, 0, Ok((255, 0))),
        (239, 16, Ok((255, 8))),
        (240, 16, Err(1)),
        (256, 0, Err(1)),
    ];
    for (frame, check_octets, answer) in rows {
        let told = answer.map(|(word, repairs)| (frame, word, repairs));
        assert!(rt; numbers::<Table>(frame, check_octets) == told);
        assert!(rt; numbers::<Shifting>(frame, check_octets) == told);
    }
}

fn encodes<C: Coder>(rt: &impl Abort, coder: &C, message: &[u8], word: &[u8]) {
    let mut buffer = [0xee; 255];
    assert!(rt; word.len() <= 255);
    let written = &mut buffer[..word.len()];
    assert_eq!(rt; coder.encode(message, written), Ok(()));
    assert!(rt; *written == *word);
}

// A clean word gives back its message.
fn decodes<C: Coder>(rt: &impl Abort, coder: &C, message: &[u8], word: &[u8]) {
    let mut buffer = [0xee; 255];
    assert!(rt; message.len() <= 255);
    let found = &mut buffer[..message.len()];
    assert_eq!(rt; coder.decode(word, found), Ok(0));
    assert!(rt; *found == *message);
}

fn one<F: OctetField>(rt: &impl Abort, message: &[u8], word: &[u8]) -> Result<(), Fail> {
    assert!(rt; message.len() <= word.len());
    let coder = ReedSolomon::<F>::new(message.len(), word.len() - message.len())?;
    encodes(rt, &coder, message, word);
    decodes(rt, &coder, message, word);
    Ok(())
}

// Both makes of the field write the word, and read it.
fn both(rt: &impl Abort, message: &[u8], word: &[u8]) -> Result<(), Fail> {
    one::<Table>(rt, message, word)?;
    one::<Shifting>(rt, message, word)
}

#[test]
fn words(rt: HostRuntime) -> Result<(), Fail> {
    both(&rt, b"\x00\x00\x01", b"\x00\x00\x01\x03\x02")?;
    both(&rt, b"\x00\x01\x00", b"\x00\x01\x00\x07\x06")?;
    both(&rt, b"\x09\x08\x07", b"\x09\x08\x07")?;
    both(
        &rt,
        b"\x12\x34\x56\x78\x9a",
        b"\x12\x34\x56\x78\x9a\x38\x3a\x7d\xed",
    )?;
    both(
        &rt,
        b"\xff\x00\x80\x01\x7f\x10",
        b"\xff\x00\x80\x01\x7f\x10\xed\x52\xf8\x9d\x8c\x47",
    )?;
    both(
        &rt,
        b"\x01\x02\x03",
        b"\x01\x02\x03\x7d\x7e\x35\x7e\x4e\x70\x20\x32\x0d\x8a\x67\x6f\xcc\x7f\x45\x1d",
    )
}

// Place k holds 7k + 3.
fn count_up(octets: &mut [u8]) {
    let mut next = 3u8;
    for octet in octets.iter_mut() {
        *octet = next;
        next = next.wrapping_add(7);
    }
}

fn full(rt: &impl Abort, message: &mut [u8], word: &mut [u8]) -> Result<(), Fail> {
    count_up(message);
    count_up(word);
    assert!(rt; word.len() == 255);
    word[239..].copy_from_slice(
        b"\x0b\x3a\x42\x90\x32\x40\xe5\x29\xae\x9c\x17\x50\x2a\x3c\xe5\x17",
    );
    both(rt, message, word)
}

#[test]
fn longest_word(rt: HostRuntime) -> Result<(), Fail> {
    full(&rt, &mut [0; 239], &mut [0; 255])
}

// Refusal 5 comes before refusal 6, and either leaves the buffers as they were.
fn refuses<C: Coder>(rt: &impl Abort, coder: &C) {
    // octets of the message, octets of the word and the refusal's number
    let rows = [
        (2, 5, 5),
        (4, 5, 5),
        (2, 4, 5),
        (3, 4, 6),
        (3, 6, 6),
        (0, 0, 5),
        (3, 0, 6),
    ];
    for (long, whole, refusal) in rows {
        let mut word = [0xee; 6];
        assert!(rt; long <= 6 && whole <= 6);
        let encoded = coder.encode(&[1; 6][..long], &mut word[..whole]);
        assert_eq!(rt; encoded.map_err(Misfit::number), Err(refusal));
        assert!(rt; word == [0xee; 6]);
        let mut message = [0xee; 6];
        let decoded = coder.decode(&[1; 6][..whole], &mut message[..long]);
        assert_eq!(rt; decoded.map_err(Undecoded::number), Err(refusal));
        assert!(rt; message == [0xee; 6]);
    }
}

#[test]
fn wrong_lengths(rt: HostRuntime) -> Result<(), Fail> {
    refuses(&rt, &ReedSolomon::<Table>::new(3, 2)?);
    refuses(&rt, &ReedSolomon::<Shifting>::new(3, 2)?);
    Ok(())
}
