// Numbers of the command line.
ghost use Rattle.std.specs.Prelude.{◌≡◌};
ghost use Rattle.std.specs.Char.{is_ascii_digit};
ghost use Rattle.std.specs.List.{list_all};
ghost use Rattle.pl_words.specs.Numbers as rule;

fn has_leading_zero(word: &[u8]) -> bool
    ensures { result ≡ rule.has_leading_zero word.now }
{
    matches!(word, [b'0', _, ..])
}

fn all_digits(word: &[u8]) -> bool
    ensures { result ≡ list_all is_ascii_digit word.now }
{
    word.iter().all(|digit| digit.is_ascii_digit())
}

/// Whether a word is one to seven decimal digits without a leading zero.
fn is_numeral(word: &[u8]) -> bool
    ensures { result ≡ rule.is_numeral word.now }
{
    1 <= word.len() && word.len() <= 7 && all_digits(word) && !has_leading_zero(word)
}

/// The number from 1 to `most` that a word writes.
pub fn number_of(most: u32, word: &str) -> Option<u32>
    ensures { result ≡ rule.number_of most word.now }
{
    if !is_numeral(word.as_bytes()) {
        return None;
    }
    match word.parse::<u32>() {
        Ok(number) => {
            if 1 <= number && number <= most {
                Some(number)
            } else {
                None
            }
        }
        Err(_) => None,
    }
}
