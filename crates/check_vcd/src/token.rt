//! What a word of a dump's body begins.
ghost use Rattle.std.specs.Prelude.{◌≡◌, true};
ghost use Rattle.check_vcd.specs.Token.{are_bits, are_plain, is_bit, is_end, is_ignored, is_plain, is_unset, is_weak_high, is_weak_low, plain_digit, token_kind, starts_other, starts_vector};

/// What a word of a dump's body begins.
#[derive(Debug, Clone, Copy, PartialEq, Eq)]
pub enum TokenKind {
    /// A word that says nothing of values: `$dumpvars`, `$dumpall` and the `$end` of a command.
    Ignored,
    /// `$dumpoff`: changes are not told from here on.
    Off,
    /// `$dumpon`: they are told again.
    On,
    Comment,
    Time,
    /// A value of one bit, with its identifier after it.
    Scalar,
    /// A value of several bits, whose identifier is the next word.
    Vector,
    /// A real number or a text, whose identifier is the next word.
    Other,
    Unknown,
}

/// Whether a digit is one bit of four values.
#[inline(always)]
fn is_plain(digit: u8) -> bool
    ensures { result ≡ is_plain digit }
{
    matches!(digit, b'0' | b'1' | b'x' | b'X' | b'z' | b'Z')
}

/// Whether a digit is 0 or 1.
#[inline(always)]
fn is_binary(digit: u8) -> bool
    ensures { result ≡ true → is_plain digit ≡ true }
{
    digit & 254 == b'0'
}

/// Whether each of these is, as in most dumps. All are looked at, several at once, which is faster than to stop at the
/// first that is not.
fn are_binary(digits: &[u8]) -> bool
    ensures { result ≡ true → are_plain digits.now ≡ true }
{
    let mut all = true;
    for digit in digits {
        all = all & is_binary(*digit);
    }
    all
}

/// Whether each of these is one bit of four values.
pub fn are_plain(digits: &[u8]) -> bool
    ensures { result ≡ are_plain digits.now }
{
    are_binary(digits) || digits.iter().all(|digit| is_plain(*digit))
}

/// Whether a digit is a weak 0.
fn is_weak_low(digit: u8) -> bool
    ensures { result ≡ is_weak_low digit }
{
    matches!(digit, b'L' | b'l')
}

/// Whether a digit is a weak 1.
fn is_weak_high(digit: u8) -> bool
    ensures { result ≡ is_weak_high digit }
{
    matches!(digit, b'H' | b'h')
}

/// Whether a digit says that nothing is known of its bit.
fn is_unset(digit: u8) -> bool
    ensures { result ≡ is_unset digit }
{
    matches!(digit, b'U' | b'u' | b'W' | b'w' | b'-')
}

/// Whether a digit stands for one bit.
#[inline(always)]
pub fn is_bit(digit: u8) -> bool
    ensures { result ≡ is_bit digit }
{
    is_plain(digit) || is_weak_low(digit) || is_weak_high(digit) || is_unset(digit)
}

/// What a digit stands for.
#[inline(always)]
pub fn plain_digit(digit: u8) -> u8
    ensures { result ≡ plain_digit digit }
{
    if is_plain(digit) {
        digit
    } else if is_weak_low(digit) {
        b'0'
    } else if is_weak_high(digit) {
        b'1'
    } else {
        b'x'
    }
}

/// Whether each of these does.
pub fn are_bits(digits: &[u8]) -> bool
    ensures { result ≡ are_bits digits.now }
{
    digits.iter().all(|digit| is_bit(*digit))
}

#[inline(always)]
fn starts_vector(first: u8) -> bool
    ensures { result ≡ starts_vector first }
{
    first == b'b' || first == b'B'
}

fn starts_other(first: u8) -> bool
    ensures { result ≡ starts_other first }
{
    matches!(first, b'r' | b'R' | b's' | b'S')
}

/// Whether a word ends a command.
pub fn is_end(word: &[u8]) -> bool
    ensures { result ≡ is_end word.now }
{
    word == b"$end".as_slice()
}

fn is_ignored(word: &[u8]) -> bool
    ensures { result ≡ is_ignored word.now }
{
    is_end(word) || word == b"$dumpvars".as_slice() || word == b"$dumpall".as_slice()
}

/// What a word with this first byte begins. Most begin a vector, and no bit is spelled as that is.
#[inline(always)]
pub fn token_kind(first: u8, word: &[u8]) -> TokenKind
    ensures { result ≡ token_kind first word.now }
{
    if starts_vector(first) {
        TokenKind::Vector
    } else if is_bit(first) {
        TokenKind::Scalar
    } else if first == b'#' {
        TokenKind::Time
    } else if starts_other(first) {
        TokenKind::Other
    } else if is_ignored(word) {
        TokenKind::Ignored
    } else if word == b"$comment".as_slice() {
        TokenKind::Comment
    } else if word == b"$dumpoff".as_slice() {
        TokenKind::Off
    } else if word == b"$dumpon".as_slice() {
        TokenKind::On
    } else {
        TokenKind::Unknown
    }
}
