// Blocks through delay lines, by hand.
use crate::lengths::Lengths;
use crate::triangle::Triangle;
use coder::{Arrival, Misfit};
use std::process::Abort;

fn line(block: u8, step: u8, lengths: Lengths) -> Triangle {
    Triangle {
        block,
        step,
        lengths,
    }
}

#[test]
fn sizes(rt: HostRuntime) {
    // I, M, P and d
    let cases = [
        (0u8, 255u8, 0usize, 0usize),
        (1, 255, 0, 0),
        (3, 1, 3, 2),
        (3, 2, 6, 4),
        (36, 10, 6300, 350),
        (255, 0, 0, 0),
        (255, 255, 8258175, 64770),
    ];
    for (block, step, memory, delay) in cases {
        let sender = line(block, step, Lengths::Rising);
        assert_eq!(rt; sender.memory(), memory);
        assert_eq!(rt; sender.delay(), delay);
        let receiver = line(block, step, Lengths::Falling);
        assert_eq!(rt; receiver.memory(), memory);
        assert_eq!(rt; receiver.delay(), delay);
    }
}

// Each row: a block that is pushed, and the one that leaves.
fn pushes<E: Copy + Eq>(
    rt: &impl Abort,
    line: &Triangle,
    memory: &mut [E],
    rows: &[([E; 3], [E; 3])],
) {
    for (clock, (entering, leaving)) in rows.iter().enumerate() {
        let mut block = *entering;
        assert_eq!(rt; line.push(clock, memory, &mut block), Ok(()));
        assert!(rt; block == *leaving);
    }
}

#[test]
fn rising_lengths(rt: HostRuntime) {
    let sender = line(3, 1, Lengths::Rising);
    let mut memory = [9; 3];
    assert_eq!(rt; sender.clear(&mut memory, 0), Ok(()));
    let rows = [
        ([1, 2, 3], [1, 0, 0]),
        ([4, 5, 6], [4, 2, 0]),
        ([7, 8, 9], [7, 5, 3]),
        ([10, 11, 12], [10, 8, 6]),
        ([13, 14, 15], [13, 11, 9]),
    ];
    pushes(&rt, &sender, &mut memory, &rows);
}

// Branch 0 waits two blocks, branch 1 one block, and branch 2 none.
#[test]
fn falling_lengths(rt: HostRuntime) {
    let receiver = line(3, 1, Lengths::Falling);
    let mut memory = [Arrival::Octet(9); 3];
    assert_eq!(rt; receiver.clear(&mut memory, Arrival::Lost), Ok(()));
    let rows = [
        (
            [1, 2, 3].map(Arrival::Octet),
            [Arrival::Lost, Arrival::Lost, Arrival::Octet(3)],
        ),
        (
            [4, 5, 6].map(Arrival::Octet),
            [Arrival::Lost, Arrival::Octet(2), Arrival::Octet(6)],
        ),
        (
            [7, 8, 9].map(Arrival::Octet),
            [Arrival::Octet(1), Arrival::Octet(5), Arrival::Octet(9)],
        ),
        (
            [10, 11, 12].map(Arrival::Octet),
            [Arrival::Octet(4), Arrival::Octet(8), Arrival::Octet(12)],
        ),
    ];
    pushes(&rt, &receiver, &mut memory, &rows);
}

// Both ends in a row: what leaves the one enters the other.
fn both(rt: &impl Abort, sent: &mut [u8], received: &mut [u8]) {
    let sender = line(3, 2, Lengths::Rising);
    let receiver = line(3, 2, Lengths::Falling);
    assert_eq!(rt; sender.clear(sent, 0), Ok(()));
    assert_eq!(rt; receiver.clear(received, 0), Ok(()));
    for clock in 0..10u8 {
        let mut block = [clock + 1, clock + 101, clock + 201];
        assert_eq!(rt; sender.push(clock as usize, sent, &mut block), Ok(()));
        assert_eq!(rt; receiver.push(clock as usize, received, &mut block), Ok(()));
        if clock < 4 {
            assert!(rt; block == [0; 3]);
        } else {
            assert!(rt; block == [clock - 3, clock + 97, clock + 197]);
        }
    }
}

#[test]
fn both_ends(rt: HostRuntime) {
    both(&rt, &mut [7; 6], &mut [8; 6]);
}

#[test]
fn no_delay(rt: HostRuntime) {
    pushes(
        &rt,
        &line(3, 0, Lengths::Falling),
        &mut [],
        &[([1, 2, 3], [1, 2, 3]), ([4, 5, 6], [4, 5, 6])],
    );
    assert_eq!(rt;
        line(0, 9, Lengths::Rising).push(5, &mut [0; 0], &mut []),
        Ok(())
    );
}

// A block of another length is refused first.
#[test]
fn refusals(rt: HostRuntime) {
    let sender = line(3, 1, Lengths::Rising);
    let mut memory = [1, 2, 3, 4];
    assert_eq!(rt;
        sender.clear(&mut memory, 0).map_err(Misfit::number),
        Err(7)
    );
    assert_eq!(rt;
        sender
            .push(0, &mut memory, &mut [5, 6])
            .map_err(Misfit::number),
        Err(6)
    );
    assert_eq!(rt;
        sender
            .push(0, &mut memory, &mut [5, 6, 7])
            .map_err(Misfit::number),
        Err(7)
    );
    assert_eq!(rt;
        sender
            .push(0, &mut [1, 2, 3], &mut [5, 6, 7, 8])
            .map_err(Misfit::number),
        Err(6)
    );
    assert!(rt; memory == [1, 2, 3, 4]);
}
