//! A few bytes as a word, the first of them lowest.

ghost use Rattle.std.specs.Prelude.{◌≡◌, ◌-◌, ◌*◌, ◌/◌, ◌^◌, ◌<◌, length};
ghost use Rattle.acfg_sip.specs.Word.{IsWordOf};

/// What is left of a word, without as many of its low bytes as join `held` bytes to a word.
pub(crate) fn word_behind(word: u64, held: u8) -> u64
    requires { held < 8 }
    ensures { result ≡ word / 2 ^ ((8 - held) * 8) }
{
    if held == 0 {
        0
    } else {
        word >> ((8 - held) * 8)
    }
}

/// These bytes as the low bytes of a word.
pub(crate) fn partial_word(bytes: &[u8]) -> u64
    requires { length bytes.now < 8 }
    ensures { IsWordOf bytes.now (length bytes.now) result }
{
    match bytes.split_first_chunk::<4>() {
        Some((four, behind)) => u64::from(u32::from_le_bytes(*four)) + (short_word(behind) << 32),
        None => short_word(bytes),
    }
}

// The same of three bytes at most.
fn short_word(bytes: &[u8]) -> u64
    requires { length bytes.now < 4 }
    ensures { IsWordOf bytes.now (length bytes.now) result }
{
    match bytes {
        [] => 0,
        [first] => u64::from(*first),
        [first, second] => u64::from(*first) + u64::from(*second) * 0x100,
        [first, second, third, ..] => {
            u64::from(*first) + u64::from(*second) * 0x100 + u64::from(*third) * 0x1_0000
        }
    }
}
