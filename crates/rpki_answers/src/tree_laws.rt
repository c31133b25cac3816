//! Laws about the answer of `tree`, each the contract of a function with no parameters and no body.
ghost use Rattle.rpki_answers.specs.TreeLaws.{CountsAddUp, RowsBeginWithTheirWord};

/// Says that the text of a file's row begins with the word for what is said of the file, whatever the
/// names of files are, and that its further lines have no word. And that each row is counted under one
/// word.
pub fn rows()
    ensures words { RowsBeginWithTheirWord }
    ensures counts { CountsAddUp }
{}
