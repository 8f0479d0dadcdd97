/// Why bytes are no text.
#[derive(Clone, Copy, Debug, PartialEq, Eq)]
pub enum TextFault {
    /// They are not UTF-8; `at` bytes is the length of the longest front that is.
    NotUtf8 { at: usize },
    /// They are UTF-8, and more than `MAX_LEN` bytes.
    TooLong,
}
