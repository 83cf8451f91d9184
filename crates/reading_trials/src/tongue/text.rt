//! Texts that are put together, with no memory of their own.

/// A text of at most 5,000 bytes.
#[derive(Clone, Copy)]
pub(crate) struct Text {
    bytes: [u8; 5000],
    len: usize,
}

impl Text {
    fn new() -> Text {
        Text {
            bytes: [0; 5000],
            len: 0,
        }
    }

    /// The text with a part after it, if there is room.
    pub(crate) fn then(mut self, part: &[u8]) -> Text {
        for byte in part {
            if self.len < 5000 {
                self.bytes[self.len] = *byte;
                self.len += 1;
            }
        }
        self
    }

    pub(crate) fn as_slice(&self) -> &[u8] {
        &self.bytes[..self.len.min(5000)]
    }
}

/// The parts, one after another.
pub(crate) fn joined(parts: &[&[u8]]) -> Text {
    let mut text = Text::new();
    for part in parts {
        text = text.then(part);
    }
    text
}

/// A front, a part so many times, and an end.
pub(crate) fn repeated(front: &[u8], part: &[u8], count: u32, end: &[u8]) -> Text {
    let mut text = Text::new().then(front);
    for _ in 0..count {
        text = text.then(part);
    }
    text.then(end)
}
