//! What a case asks.

/// A call, and what it is given: `CALL [+BLOB] WORD.. : GIVEN`.
#[derive(Clone, Copy)]
pub struct Asked<'t> {
    /// The name of the call.
    pub call: &'t str,
    /// The binary buffer of a container round the given text, in hexadecimal digits; or what a call
    /// does with it.
    pub blob: Option<&'t str>,
    /// The other words of the call.
    pub words: &'t str,
    /// What the call is made on: a text, or `%` and the hexadecimal digits of bytes.
    pub given: &'t str,
}

impl<'t> Asked<'t> {
    /// What a line asks.
    pub fn of(line: &'t str) -> Asked<'t> {
        let (head, given) = line.split_once(" :").unwrap_or((line, ""));
        let given = given.strip_prefix(" ").unwrap_or(given);
        let (call, words) = head.split_once(" ").unwrap_or((head, ""));
        match words.strip_prefix("+") {
            Some(rest) => {
                let (blob, words) = rest.split_once(" ").unwrap_or((rest, ""));
                Asked {
                    call,
                    blob: Some(blob),
                    words,
                    given,
                }
            }
            None => Asked {
                call,
                blob: None,
                words,
                given,
            },
        }
    }

    /// The call that the first of the words names, with the words after it.
    pub fn inner(self) -> Asked<'t> {
        let (call, words) = self.words.split_once(" ").unwrap_or((self.words, ""));
        Asked {
            call,
            words,
            ..self
        }
    }

    /// One of the words, counted from 0; nothing where there are fewer.
    pub fn word(&self, place: usize) -> &'t str {
        self.words.split_whitespace().nth(place).unwrap_or("")
    }

    /// One of the words as a number; 0 where it is none.
    pub fn number(&self, place: usize) -> usize {
        self.word(place).parse::<usize>().unwrap_or(0)
    }

    /// One of the parts of what is given, counted from 0; nothing where there are fewer.
    pub fn part(&self, place: usize) -> &'t str {
        self.given.split_whitespace().nth(place).unwrap_or("")
    }
}
