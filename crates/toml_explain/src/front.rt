//! What stands before a place of a text: the last byte that counts, and which bracket is open.
use std::alloc::{AllocError, Global};

/// Where a byte stands.
#[derive(Clone, Copy)]
enum Room {
    Plain,
    Comment,
    /// Behind the first marks of a string, so many.
    Opened(u8, usize),
    /// In a string on one line.
    Quoted(u8),
    QuotedEscape,
    /// In a string that may go on over lines, behind so many of its marks.
    Lines(u8, usize),
    LinesEscape,
}

/// A bracket or brace that is not closed.
#[derive(Clone, Copy)]
pub(crate) struct Open {
    pub mark: u8,
    /// Where the element or pair begins that is not ended: behind the last comma in it, or behind the mark.
    pub item: usize,
}

/// What stands before a place.
#[derive(Drop)]
pub(crate) struct Front {
    /// The last byte that is no whitespace, no newline and of no comment.
    pub last: Option<u8>,
    /// The brackets and braces that are not closed, the outermost first.
    open: Vec<Open>,
}

impl Front {
    /// What stands open at the end of these bytes, which were read from the beginning of a line on.
    pub(crate) fn of(alloc: Global, bytes: &[u8]) -> Result<Front, AllocError> {
        let mut front = Front {
            last: None,
            open: Vec::new(alloc),
        };
        let mut room = Room::Plain;
        for (at, byte) in bytes.iter().enumerate() {
            room = next(room, *byte);
            front.take(room, *byte, at.saturating_add(1))?;
        }
        Ok(front)
    }

    /// The innermost bracket or brace that is not closed.
    pub(crate) fn innermost(&self) -> Option<Open> {
        self.open.last().copied()
    }

    /// Takes a byte in, which stands there, before a place.
    fn take(&mut self, room: Room, byte: u8, behind: usize) -> Result<(), AllocError> {
        if matches!(room, Room::Comment) || byte.is_ascii_whitespace() {
            return Ok(());
        }
        self.last = Some(byte);
        match (room, byte) {
            (Room::Plain, b'[' | b'{') => self.open.push(Open {
                mark: byte,
                item: behind,
            })?,
            (Room::Plain, b']' | b'}') => {
                let _ = self.open.pop();
            }
            (Room::Plain, b',') => self.begin_item(behind),
            _ => {}
        }
        Ok(())
    }

    /// Another element or pair begins at a place.
    fn begin_item(&mut self, at: usize) {
        if let Some(open) = self.open.last_mut() {
            open.item = at;
        }
    }
}

/// Where a byte stands, by where the one before it does.
fn next(room: Room, byte: u8) -> Room {
    match room {
        Room::Plain => behind_plain(byte),
        Room::Comment => match byte {
            b'\n' => Room::Plain,
            _ => Room::Comment,
        },
        Room::Opened(mark, 1) if byte == mark => Room::Opened(mark, 2),
        Room::Opened(mark, 1) => behind_quoted(mark, byte),
        Room::Opened(mark, _) if byte == mark => Room::Lines(mark, 0),
        Room::Opened(_, _) => behind_plain(byte),
        Room::Quoted(mark) => behind_quoted(mark, byte),
        Room::QuotedEscape => Room::Quoted(b'"'),
        Room::Lines(mark, marks) => behind_lines(mark, marks, byte),
        Room::LinesEscape => Room::Lines(b'"', 0),
    }
}

/// Where a byte stands before which no string and no comment is open.
fn behind_plain(byte: u8) -> Room {
    match byte {
        b'#' => Room::Comment,
        b'"' | b'\'' => Room::Opened(byte, 1),
        _ => Room::Plain,
    }
}

/// Where a byte stands before which a string on one line is open.
fn behind_quoted(mark: u8, byte: u8) -> Room {
    if byte == mark {
        Room::Plain
    } else if mark == b'"' && byte == b'\\' {
        Room::QuotedEscape
    } else {
        Room::Quoted(mark)
    }
}

/// Three marks and more close such a string.
fn behind_lines(mark: u8, marks: usize, byte: u8) -> Room {
    if byte == mark {
        Room::Lines(mark, marks.saturating_add(1))
    } else if 3 <= marks {
        behind_plain(byte)
    } else if mark == b'"' && byte == b'\\' {
        Room::LinesEscape
    } else {
        Room::Lines(mark, 0)
    }
}
