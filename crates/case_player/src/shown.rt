use std::fmt;

/// The bytes that are shown at most.
const MOST: usize = 400;

/// The byte from which two texts are shown: the first that differs where one of them is too long to
/// be shown whole, else the first.
pub(crate) fn shown_from(one: &[u8], other: &[u8]) -> usize {
    if one.len() <= MOST && other.len() <= MOST {
        return 0;
    }
    one.iter()
        .zip(other)
        .take_while(|(byte, beside)| byte == beside)
        .count()
}

/// Bytes as they are shown: in quotes, a bar where a write begins, and not too many.
#[derive(Clone, Copy)]
pub(crate) struct Shown<'a> {
    bytes: &'a [u8],
    starts: &'a [usize],
    from: usize,
}

impl<'a> Shown<'a> {
    /// These bytes, from their first one.
    pub(crate) fn new(bytes: &'a [u8]) -> Shown<'a> {
        Shown {
            bytes,
            starts: &[],
            from: 0,
        }
    }

    /// These bytes from this one on, with a bar where a write begins.
    pub(crate) fn with_writes(bytes: &'a [u8], starts: &'a [usize], from: usize) -> Shown<'a> {
        Shown {
            bytes,
            starts,
            from,
        }
    }

    /// A bar for each write that begins at this place.
    fn bars<W: fmt::Write>(&self, place: usize, f: &mut fmt::Formatter<W>) -> fmt::Result {
        for start in self.starts {
            if *start == place {
                f.write_str("|")?;
            }
        }
        Ok(())
    }

    /// The bytes that are shown, and the end where it is reached.
    fn quoted<W: fmt::Write>(&self, f: &mut fmt::Formatter<W>) -> fmt::Result {
        f.write_str("\"")?;
        for (place, byte) in self.bytes.iter().enumerate().skip(self.from).take(MOST) {
            self.bars(place, f)?;
            write!(f, "{}", byte.escape_ascii())?;
        }
        if self.bytes.len().saturating_sub(self.from) <= MOST {
            self.bars(self.bytes.len(), f)?;
            return f.write_str("\"");
        }
        f.write_str("\" and more")
    }
}

impl fmt::Display for Shown<'_> {
    fn fmt<W: fmt::Write>(&self, f: &mut fmt::Formatter<W>) -> fmt::Result {
        if 0 < self.from {
            write!(f, "from byte {} of {} ", self.from, self.bytes.len())?;
        }
        self.quoted(f)
    }
}
