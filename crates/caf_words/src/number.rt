ghost use Rattle.std.specs.Prelude.{◌≡◌, true};
ghost use Rattle.std.specs.List.{list_all};
ghost use Rattle.std.specs.Char.{is_ascii_digit};
ghost use Rattle.caf_words.specs.Numbers.{events_in, images_in, number_in, ranged, workers_in};

const MOST_DIGITS: usize = 20;

fn are_digits(bytes: &[u8]) -> bool
    ensures { result ≡ list_all is_ascii_digit bytes.now }
{
    bytes.iter().all(|b| b.is_ascii_digit())
}

/// The number of a word of one to twenty digits, if 64 bits hold it.
pub(crate) fn number_in(word: &str) -> Option<u64>
    ensures { result ≡ number_in word.now }
{
    if word.is_empty() || word.len() > MOST_DIGITS || !are_digits(word.as_bytes()) {
        return None;
    }
    word.parse::<u64>().ok()
}

fn ranged(low: u32, high: u32, word: &str) -> Option<u32>
    ensures { result ≡ ranged low high (number_in word.now) }
{
    let number = number_in(word)?;
    if u64::from(low) <= number && number <= u64::from(high) {
        Some(number as u32)
    } else {
        None
    }
}

/// How many images a program may run on.
pub(crate) fn images_in(word: &str) -> Option<u32>
    ensures { result ≡ images_in word.now }
{
    ranged(1, 64, word)
}

/// How many workers may run a program.
pub(crate) fn workers_in(word: &str) -> Option<u32>
    ensures { result ≡ workers_in word.now }
{
    ranged(1, 8, word)
}

/// How many events a run may have.
pub(crate) fn events_in(word: &str) -> Option<u32>
    ensures { result ≡ events_in word.now }
{
    ranged(1, 1_000_000, word)
}
