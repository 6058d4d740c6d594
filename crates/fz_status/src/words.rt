//! Words by their index.
ghost use Rattle.std.specs.Prelude.{◌≡◌};
ghost use Rattle.fz_status.specs.Words.{texts_of, word_at};

/// The word at this index, the program's own name being at 0; the empty word if there is none.
pub fn word(words: &[String], place: u32) -> &str
    ensures { result.now ≡ word_at (texts_of words.now) place }
{
    match words.get(place as usize) {
        Some(word) => word.as_str(),
        None => "",
    }
}
