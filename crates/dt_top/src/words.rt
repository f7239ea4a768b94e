// What a word of a command may be.
ghost use Rattle.std.specs.Prelude.{◌≡◌};
ghost use Rattle.dt_top.specs.Words.{word_number, is_file_name};

use dt_lex::number;

/// A number below 2^64.
pub fn word_number(word: &str) -> Option<u64>
    ensures { result ≡ word_number word.now }
{
    match number(word.as_bytes()) {
        Some(n) if n <= u128::from(u64::MAX) => Some(n as u64),
        _ => None,
    }
}

/// Whether a word is a file's name: it isn't empty, and doesn't begin with `@`.
pub fn is_file_name(word: &str) -> bool
    ensures { result ≡ is_file_name word.now }
{
    match word.as_bytes() {
        [] => false,
        [first, ..] => *first != b'@',
    }
}
