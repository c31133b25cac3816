//! The parts of a document.

/// A value of a document. The text and the JSON of each kind are its two forms.
#[derive(Drop)]
pub enum Leaf<'a> {
    /// A text that anyone may have chosen. In a line, what isn't visible ASCII is escaped.
    Text(&'a str),
    /// Such a text with more behind it in its line. There, a colon, a comma, `>` and an opening
    /// parenthesis are escaped too.
    Inner(&'a str),
    /// Octets as characters, escaped in both forms.
    Characters(&'a [u8]),
    /// Words for a person, and a word for a program.
    Words(&'a str, &'a str),
    /// A count.
    Count(u64),
    /// Octets, in hexadecimal with colons between them.
    Octets(&'a [u8]),
    /// A boolean, in a line `yes` or `no`.
    Flag(bool),
    /// A text that was made for the document, the same in both forms.
    Own(String),
    /// Such a text that has escapes of its own, as a distinguished name has: in a line its backslashes
    /// are printed as they are.
    Printed(String),
    /// A number, and the words for a person, such as a time and its seconds.
    Dated(String, i64),
}

/// A piece of a line.
#[derive(Drop)]
pub enum Piece<'a> {
    /// Words of the line alone.
    Say(&'a str),
    /// A value under a key.
    Tell(&'a str, Leaf<'a>),
    /// A value that has no key.
    Show(Leaf<'a>),
    /// A value that isn't in the line.
    Keep(&'a str, Leaf<'a>),
}

/// The parts of a document, one after the other.
pub type Parts<'a> = Vec<Part<'a>>;

/// A part of a document.
#[derive(Drop)]
pub enum Part<'a> {
    /// The head of an answer: a label, a colon, a space, and the pieces.
    Head(&'a str, Vec<Piece<'a>>),
    /// A line, with its label.
    Line(&'a str, Vec<Piece<'a>>),
    /// A further line of the label above.
    Further(Vec<Piece<'a>>),
    /// Values that are in no line.
    Unsaid(Vec<Piece<'a>>),
    /// Parts that are an object under a key.
    Inside(&'a str, Vec<Part<'a>>),
    /// Parts that are a list under a key.
    Each(&'a str, Vec<Part<'a>>),
    /// Parts that are in no line.
    Aside(Vec<Part<'a>>),
}
