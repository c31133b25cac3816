//! Words that are options or files.
ghost use Rattle.std.specs.Prelude.{◌≡◌, ◌↔◌, ◌==◌, IsTrue, position};
ghost use Rattle.rpki_text.specs.CommandLines.Views.{word_octets};
ghost use Rattle.rpki_text.specs.WordParts.{IsOption, words_before, words_behind};

/// Returns whether the word is this text.
pub fn is(word: &[u8], text: &str) -> bool
    ensures { IsTrue result ↔ (word.now ≡ text.now) }
{
    word == text.as_bytes()
}

/// Returns whether the word starts with a hyphen and isn't the hyphen alone.
pub fn is_option(word: &[u8]) -> bool
    ensures { IsTrue result ↔ IsOption word.now }
{
    word.len() > 1 && word[0] == b'-'
}

/// Returns the index of the first `=` of a word.
pub fn place_of_equals(word: &[u8]) -> Option<usize>
    ensures { result ≡ position (λ c. c == 0x3D) word.now }
{
    word.iter().position(|c| *c == b'=')
}

/// Returns the words before the first `--`, and the words after it.
pub fn around_dashes(words: &[Vec<u8>]) -> (&[Vec<u8>], &[Vec<u8>])
    ensures before { word_octets result.0.now ≡ words_before (word_octets words.now) }
    ensures behind { word_octets result.1.now ≡ words_behind (word_octets words.now) }
{
    for (place, word) in words.iter().enumerate() {
        if is(word.as_slice(), "--") {
            return (&words[..place], &words[place + 1..]);
        }
    }
    (words, &[])
}
