//! What is cut off a text: a line, a word, and the words of an event.

/// A line of a text without its line feed, and the text after it.
#[derive(Clone, Copy)]
pub struct Line<'a> {
    pub text: &'a [u8],
    pub rest: &'a [u8],
}

/// A word of a line, and what follows the space after it.
#[derive(Clone, Copy)]
pub struct Word<'a> {
    pub text: &'a [u8],
    pub rest: Option<&'a [u8]>,
}

#[derive(Clone, Copy)]
pub struct TwoWords<'a> {
    pub first: &'a [u8],
    pub second: &'a [u8],
}

/// The first five words of an event's line, and what follows them.
#[derive(Clone, Copy)]
pub struct EventWords<'a> {
    pub at: &'a [u8],
    pub frame: &'a [u8],
    pub v: &'a [u8],
    pub h: &'a [u8],
    pub verb: &'a [u8],
    pub args: Option<&'a [u8]>,
}
