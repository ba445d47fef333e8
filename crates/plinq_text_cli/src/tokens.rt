use crate::query_fault::QueryFault;
use std::alloc::Global;
use std::mem;

/// A part of a query's words.
#[derive(Debug, Drop)]
pub(crate) enum Token {
    /// A word as it stands.
    Word(String),
    /// A text that stood in quotes.
    Text(Quoted),
    /// What parts two steps.
    Bar,
}

/// A text that stood in quotes.
#[derive(Debug, Drop)]
pub(crate) struct Quoted {
    /// As it stood there, backslashes and all.
    pub(crate) raw: String,
    /// What it means.
    pub(crate) text: String,
    /// Whether each backslash in it stands before a character before which it may.
    pub(crate) is_plain: bool,
}

/// Where a reader of tokens is.
#[derive(Clone, Copy, PartialEq, Eq)]
enum Place {
    Between,
    InWord,
    InText,
    AfterBackslash,
}

/// Reads tokens character by character.
#[derive(Drop)]
struct TokenReader {
    alloc: Global,
    tokens: Vec<Token>,
    raw: String,
    text: String,
    is_plain: bool,
    place: Place,
}

/// The parts of a query's words: words and texts in quotes, parted by blanks, and bars.
pub(crate) fn tokens_of(alloc: Global, words: &str) -> Result<Vec<Token>, QueryFault> {
    let mut reader = TokenReader {
        alloc,
        tokens: Vec::new(alloc),
        raw: String::new(alloc),
        text: String::new(alloc),
        is_plain: true,
        place: Place::Between,
    };
    for c in words.chars() {
        reader.place = reader.read(c)?;
    }
    match reader.place {
        Place::Between => {}
        Place::InWord => reader.end_word()?,
        Place::InText | Place::AfterBackslash => return Err(QueryFault::OpenText),
    }
    Ok(reader.tokens)
}

impl TokenReader {
    /// Takes one character, and returns where the reader is then.
    fn read(&mut self, c: char) -> Result<Place, QueryFault> {
        match self.place {
            Place::Between => self.begin(c),
            Place::InWord => self.go_on(c),
            Place::InText => self.quote(c),
            Place::AfterBackslash => self.escape(c),
        }
    }

    fn begin(&mut self, c: char) -> Result<Place, QueryFault> {
        if is_blank(c) {
            return Ok(Place::Between);
        }
        if c == '|' {
            self.tokens.push(Token::Bar)?;
            return Ok(Place::Between);
        }
        if c == '"' {
            return Ok(Place::InText);
        }
        if c == '\'' {
            return Err(QueryFault::SingleQuote);
        }
        self.text.push(c)?;
        Ok(Place::InWord)
    }

    fn go_on(&mut self, c: char) -> Result<Place, QueryFault> {
        if c == '"' {
            return Err(QueryFault::QuoteInWord);
        }
        if is_blank(c) || c == '|' {
            self.end_word()?;
            return self.begin(c);
        }
        self.text.push(c)?;
        Ok(Place::InWord)
    }

    fn quote(&mut self, c: char) -> Result<Place, QueryFault> {
        if c == '"' {
            self.end_text()?;
            return Ok(Place::Between);
        }
        self.raw.push(c)?;
        if c == '\\' {
            return Ok(Place::AfterBackslash);
        }
        self.text.push(c)?;
        Ok(Place::InText)
    }

    fn escape(&mut self, c: char) -> Result<Place, QueryFault> {
        self.raw.push(c)?;
        match c {
            '"' | '\\' => self.text.push(c)?,
            't' => self.text.push('\t')?,
            'r' => self.text.push('\r')?,
            _ => self.is_plain = false,
        }
        Ok(Place::InText)
    }

    fn end_text(&mut self) -> Result<(), QueryFault> {
        let quoted = Quoted {
            raw: mem::replace(&mut self.raw, String::new(self.alloc)),
            text: mem::replace(&mut self.text, String::new(self.alloc)),
            is_plain: self.is_plain,
        };
        self.is_plain = true;
        self.tokens.push(Token::Text(quoted))?;
        Ok(())
    }

    fn end_word(&mut self) -> Result<(), QueryFault> {
        let word = mem::replace(&mut self.text, String::new(self.alloc));
        self.tokens.push(Token::Word(word))?;
        Ok(())
    }
}

fn is_blank(c: char) -> bool {
    c == ' ' || c == '\t' || c == '\n' || c == '\r'
}
