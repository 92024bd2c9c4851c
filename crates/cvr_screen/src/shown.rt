use std::fmt;

// The most characters of a value that are shown.
const MOST: usize = 60;

/// A text as a terminal shows it: its control characters are escaped.
#[derive(Clone, Copy, Drop)]
pub struct Shown<'a> {
    text: &'a str,
    // The most characters of it that are shown.
    most: usize,
}

impl<'a> Shown<'a> {
    /// The text, as it is shown.
    pub fn new(text: &'a str) -> Shown<'a> {
        Shown {
            text,
            most: usize::MAX,
        }
    }

    /// The first sixty characters of the text, as they are shown.
    pub fn cut(text: &'a str) -> Shown<'a> {
        Shown { text, most: MOST }
    }
}

impl fmt::Display for Shown<'_> {
    fn fmt<W: fmt::Write>(&self, f: &mut fmt::Formatter<W>) -> fmt::Result {
        for (place, sign) in self.text.chars().enumerate() {
            if place == self.most {
                return f.write_char('…');
            }
            if sign.is_control() {
                write!(f, "{}", sign.escape_default())?;
            } else {
                f.write_char(sign)?;
            }
        }
        Ok(())
    }
}
