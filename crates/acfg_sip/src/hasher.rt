//! A message hashed piece by piece, so that no key has to be joined in memory.

ghost use Rattle.std.specs.Prelude.{◌≡◌, ℕ, ◌%◌, ◌*◌, ◌^◌, ◌<◌, ◌≤◌, List, [], ◌∷◌, ◌++◌};

use crate::state::State;
use crate::word::{partial_word, word_behind};

/// SipHash-C-D of a message that comes in pieces.
#[derive(Clone, Copy)]
pub(crate) struct Hasher<const C: usize, const D: usize> {
    state: State,
    // The bytes since the last whole word, the first of them lowest.
    partial: u64,
    // How many bytes have come, modulo 256.
    count: u8,
    ghost partial_fits: { partial < 2 ^ (count % 8 * 8) },
}

impl<const C: usize, const D: usize> Hasher<C, D> {
    ghost use Rattle.acfg_sip.specs.Hasher.{Holds, TakesIn};
    ghost use Rattle.acfg_sip.specs.SipHash.{State, compressed, finalized, initialized, words_of};
    ghost use Rattle.acfg_sip.specs.Word.{IsWordOf};
    ghost use Rattle.std.specs.Prelude.{fold};

    /// A hasher of the empty message.
    pub(crate) fn new(key0: u64, key1: u64) -> Self
        ensures { Holds (initialized key0 key1) result [] }
    {
        Hasher {
            state: State::new(key0, key1),
            partial: 0,
            count: 0,
        }
    }

    // Adds so many bytes to the message, the low bytes of a word, the first of them lowest.
    fn merge(&mut self, word: u64, count: u8)
        requires few { count ≤ 8 }
        requires below { word < 2 ^ (count * 8) }
        ensures { (bytes : List ℕ) → IsWordOf bytes count word → TakesIn self.old self.new bytes }
    {
        let held = self.count % 8;
        let joined = self.partial + (word << (held * 8));
        self.count = self.count.wrapping_add(count);
        if held + count < 8 {
            self.partial = joined;
        } else {
            self.state = self.state.compress::<C>(joined);
            self.partial = word_behind(word, held);
        }
    }

    /// Adds one byte to the message.
    pub(crate) fn push(&mut self, byte: u8)
        ensures { TakesIn self.old self.new (byte ∷ []) }
    {
        self.merge(u64::from(byte), 1);
    }

    /// Adds these bytes to the message, eight at a time.
    pub(crate) fn write(&mut self, bytes: &[u8])
        ensures { TakesIn self.old self.new bytes.now }
    {
        let mut rest = bytes;
        while let Some((group, behind)) = rest.split_first_chunk::<8>() {
            self.merge(u64::from_le_bytes(*group), 8);
            rest = behind;
        }
        self.merge(partial_word(rest), rest.len() as u8);
    }

    /// The hash of the message.
    pub(crate) fn finish(self) -> u64
        ensures { (start : State) (message : List ℕ) → Holds start self.entry message →
            result ≡ finalized D (fold (compressed C) start (words_of message)) }
    {
        let last = self.partial + (u64::from(self.count) << 56);
        self.state.compress::<C>(last).finalize::<D>()
    }
}
