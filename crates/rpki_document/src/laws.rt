//! Laws about documents, each the contract of a function with no parameters and no body.
ghost use Rattle.rpki_document.specs.Laws.{CharactersAreApart, CharactersAreVisible, InnerTextsAreApart, InnerTextsAreUnseparated, InnerTextsAreVisible, JsonIsWhole, LinesAreItsOwn, TextTells};

/// Says that the lines of a document's text are exactly its own, whatever its values are: each has
/// its label and says visible characters alone. Two documents of one text have the same lines.
pub fn lines()
    ensures own { LinesAreItsOwn }
    ensures tells { TextTells }
{}

/// Says that bytes such as a file's name are printed as visible ASCII characters and spaces alone,
/// so that they stay in their line, and that no two are printed alike.
pub fn characters()
    ensures visible { CharactersAreVisible }
    ensures apart { CharactersAreApart }
{}

/// Says the same of bytes that are followed by more in their line, and that their text has no
/// separator. If two lines with a separator after such a text are equal, the bytes are equal, and so
/// is what follows. No name can therefore add to its line or imitate what is printed after another
/// name.
pub fn inner_texts()
    ensures visible { InnerTextsAreVisible }
    ensures unseparated { InnerTextsAreUnseparated }
    ensures apart { InnerTextsAreApart }
{}

/// Says that the JSON of a document has no floats.
pub fn numbers()
    ensures whole { JsonIsWhole }
{}
