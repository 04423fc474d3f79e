//! The words of a line.
ghost use Rattle.std.specs.Prelude.{◌≡◌, ◌∷◌, [], ◌≤◌, IfNone, IfSome, length, map, take};
ghost use Rattle.tl_text.specs.Word.{BeginsWithWord, IsFront, is_blank, words_of};

use arrayvec::ArrayVec;

/// The most words of a line that are looked at: one more than the longest operation has.
pub const MAX_WORDS: usize = 6;

/// Whether a byte stands between words: a space or a tab.
fn is_blank(byte: u8) -> bool
    ensures { result ≡ is_blank byte }
{
    byte == b' ' || byte == b'\t'
}

/// A line without the blanks before its first word.
fn skip_blanks(line: &[u8]) -> &[u8]
    ensures same { words_of result.now ≡ words_of line.now }
    ensures front { BeginsWithWord result.now }
{
    let mut rest = line;
    while let [first, more @ ..] = rest {
        if !is_blank(*first) {
            return rest;
        }
        rest = more;
    }
    rest
}

/// How many bytes stand before the first blank of a line.
fn word_len(line: &[u8]) -> usize
    ensures inside { result ≤ length line.now }
    ensures word { IsFront line.now result }
{
    let mut len = 0;
    while len < line.len() && !is_blank(line[len]) {
        len += 1;
    }
    len
}

/// The first word of a line and what stands after it, if there is a word.
fn split_word(line: &[u8]) -> Option<(&[u8], &[u8])>
    ensures some { IfSome result (λ parts. words_of line.now ≡ parts.0.now ∷ words_of parts.1.now) }
    ensures none { IfNone result (words_of line.now ≡ []) }
{
    let rest = skip_blanks(line);
    if rest.is_empty() {
        return None;
    }
    Some(rest.split_at(word_len(rest)))
}

/// The first words of a line, which stand between spaces and tabs.
pub fn split_words(line: &[u8]) -> ArrayVec<&[u8], MAX_WORDS>
    ensures { map (λ word. word.now) result.items ≡ take MAX_WORDS (words_of line.now) }
{
    let mut words = ArrayVec::new();
    let mut rest = line;
    while !words.is_full() {
        let Some((word, behind)) = split_word(rest) else {
            return words;
        };
        words.push(word);
        rest = behind;
    }
    words
}
