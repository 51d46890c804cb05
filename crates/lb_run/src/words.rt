//! The words of a command.
ghost use Rattle.std.specs.Prelude.{◌≡◌, map};
ghost use Rattle.std.specs.String.{string_bytes};
ghost use Rattle.std.specs.Option.{option_copied};
ghost use Rattle.std.specs.List.{list_all};
ghost use Rattle.lb_model_book.specs.PlainForm as form;
ghost use Rattle.lb_run.specs.Words.{main_of, is_main};

/// The name of the main file where the words are `set` and such a name, and None where they are not.
pub fn main_word(words: &[String]) -> Option<&str>
    ensures { option_copied result ≡ main_of (map string_bytes words.now) }
{
    let [command, main] = words else {
        return None;
    };
    if command.as_str() == "set" && is_main_name(main.as_bytes()) {
        Some(main.as_str())
    } else {
        None
    }
}

fn is_letter_or_digit(c: u8) -> bool
    ensures { result ≡ form.is_letter_or_digit c }
{
    matches!(c, b'0'..=b'9' | b'A'..=b'Z' | b'a'..=b'z')
}

fn are_letters_or_digits(word: &[u8]) -> bool
    ensures { result ≡ list_all form.is_letter_or_digit word.now }
{
    word.iter().all(|c| is_letter_or_digit(*c))
}

/// Whether a word is 1 to 100 letters and digits.
fn is_main_name(word: &[u8]) -> bool
    ensures { result ≡ is_main word.now }
{
    !word.is_empty() && word.len() <= 100 && are_letters_or_digits(word)
}
