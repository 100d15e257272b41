// Which branch of a delay line is the longest.
#[derive(Clone, Copy, PartialEq, Eq, Debug)]
pub enum Lengths {
    // the last one, as at the sender
    Rising,
    // the first one, as at the receiver
    Falling,
}
