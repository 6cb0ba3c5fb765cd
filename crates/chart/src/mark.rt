// A word's place before and after the symbol interleaver.
#[derive(Clone, Copy, PartialEq, Eq, Debug)]
pub struct Mark {
    pub before: u16,
    pub after: u16,
}
