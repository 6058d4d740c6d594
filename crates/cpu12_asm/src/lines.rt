//! Lines of source and their words.
ghost use Rattle.std.specs.Prelude.{ℕ, ◌≡◌, ◌≤◌, ◌+◌, ◌==◌, not, List, [], ◌∷◌, Option, Some, None, length, drop};
ghost use Rattle.std.specs.Prelude.{take_while};
ghost use Rattle.std.specs.List.{position_or_len};
ghost use Rattle.std.specs.Str.Lines.{strip_carriage_return};
ghost use Rattle.cpu12_asm.specs.Lines.{run, pieces, lines_of, is_blank, is_in_word, is_code, first_word};
ghost use Rattle.cpu12_asm.specs.Lines.{behind_word, without_blanks, code_of};
ghost use Rattle.cpu12_asm.specs.Left.{pieces_left, lines_left, size_left};

fn piece_len(text: &[u8], c: u8) -> usize
    ensures value { result ≡ position_or_len (λ b. b == c) text.now }
    ensures bound { result ≤ length text.now }
{
    text.iter().take_while(|b| **b != c).count()
}

/// The part of a text before the first byte `c`, and what follows that byte.
pub(crate) fn cut(text: &[u8], c: u8) -> (&[u8], Option<&[u8]>)
    ensures pieces { pieces c text.now ≡ result.0.now ∷ pieces_left c result.1 }
    ensures size { length result.0.now + size_left result.1 ≡ length text.now }
{
    let n = piece_len(text, c);
    if n < text.len() {
        (&text[..n], Some(&text[n + 1..]))
    } else {
        (text, None)
    }
}

/// The first line of a text, and what follows it.
pub(crate) fn cut_line(text: &[u8]) -> (&[u8], Option<&[u8]>)
    ensures lines { lines_of text.now ≡ result.0.now ∷ lines_left result.1 }
    ensures size { length result.0.now + size_left result.1 ≤ length text.now }
{
    let (line, left) = cut(text, b'\n');
    match left {
        Some(rest) => (without_return(line), Some(rest)),
        None => (line, None),
    }
}

fn without_return(line: &[u8]) -> &[u8]
    ensures { result.now ≡ strip_carriage_return line.now }
{
    match line.split_last() {
        Some((b'\r', front)) => front,
        _ => line,
    }
}

fn is_blank(b: u8) -> bool
    ensures { result ≡ is_blank b }
{
    b == b' ' || b == b'\t'
}

fn code_len(line: &[u8]) -> usize
    ensures value { result ≡ run is_code line.now }
    ensures bound { result ≤ length line.now }
{
    line.iter().take_while(|b| **b != b';').count()
}

fn word_len(text: &[u8]) -> usize
    ensures value { result ≡ run is_in_word text.now }
    ensures bound { result ≤ length text.now }
{
    text.iter().take_while(|b| !is_blank(**b)).count()
}

fn blank_len(text: &[u8]) -> usize
    ensures value { result ≡ run is_blank text.now }
    ensures bound { result ≤ length text.now }
{
    text.iter().take_while(|b| is_blank(**b)).count()
}

/// A line without its comment.
pub(crate) fn code(line: &[u8]) -> &[u8]
    ensures value { result.now ≡ code_of line.now }
    ensures bound { length result.now ≤ length line.now }
{
    &line[..code_len(line)]
}

/// The first word.
pub(crate) fn first_word(text: &[u8]) -> &[u8]
    ensures value { result.now ≡ first_word text.now }
    ensures bound { length result.now ≤ length text.now }
{
    &text[..word_len(text)]
}

/// What follows the first word and the blanks after it.
pub(crate) fn behind_word(text: &[u8]) -> &[u8]
    ensures value { result.now ≡ behind_word text.now }
    ensures bound { length result.now ≤ length text.now }
{
    without_blanks(&text[word_len(text)..])
}

fn without_blanks(text: &[u8]) -> &[u8]
    ensures value { result.now ≡ without_blanks text.now }
    ensures bound { length result.now ≤ length text.now }
{
    &text[blank_len(text)..]
}
