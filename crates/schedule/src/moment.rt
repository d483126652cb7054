/// When a command's turn is: by its tag, and of equal tags by its serial.
#[derive(Clone, Copy, PartialEq, Eq, PartialOrd, Ord)]
pub struct Moment {
    pub tag: u64,
    pub serial: u64,
}
