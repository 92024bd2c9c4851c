ghost use Rattle.std.specs.Prelude.{◌≡◌};
ghost use Rattle.std.specs.List.{list_all};
ghost use Rattle.std.specs.Char.{is_ascii_digit};
ghost use Rattle.cvr_words.specs.Step.{number_of_text};

fn are_digits(bytes: &[u8]) -> bool
    ensures { result ≡ list_all is_ascii_digit bytes.now }
{
    bytes.iter().all(|byte| byte.is_ascii_digit())
}

/// The number of one to nine decimal digits; None for any other text. Takes no memory.
pub(crate) fn read_number(text: &str) -> Option<u32>
    ensures { result ≡ number_of_text text.now }
{
    if text.is_empty() || 9 < text.len() || !are_digits(text.as_bytes()) {
        return None;
    }
    text.parse::<u32>().ok()
}
