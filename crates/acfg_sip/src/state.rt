//! The internal state of SipHash and its three steps: initialization, compression, finalization.

ghost use Rattle.std.specs.Prelude.{◌≡◌, fold};
ghost use Rattle.acfg_sip.specs.SipHash as spec;

use std::marker::Model;

/// The four words of SipHash's internal state (section 2 of its paper).
#[derive(Clone, Copy)]
pub(crate) struct State {
    v0: u64,
    v1: u64,
    v2: u64,
    v3: u64,
}

impl Model for State {
    ghost Value = { spec.State };

    ghost view = { λ s. record { v0 = s.v0; v1 = s.v1; v2 = s.v2; v3 = s.v3 } };

    ghost inverse = { λ s. record { v0 = s.v0; v1 = s.v1; v2 = s.v2; v3 = s.v3 } };
}

impl State {
    /// The state that two keys begin with.
    #[tactic(auto, unfolding(crate::specs::SipHash::initialized))]
    pub(crate) fn new(key0: u64, key1: u64) -> State
        ensures { result ≡ spec.initialized key0 key1 }
    {
        State {
            v0: key0 ^ 0x736f_6d65_7073_6575,
            v1: key1 ^ 0x646f_7261_6e64_6f6d,
            v2: key0 ^ 0x6c79_6765_6e65_7261,
            v3: key1 ^ 0x7465_6462_7974_6573,
        }
    }

    // SipRound. The two halves of a step are independent, so they are interleaved.
    #[tactic(auto, unfolding(crate::specs::SipHash::sip_round))]
    fn round(self) -> State
        ensures { result ≡ spec.sip_round self }
    {
        let State {
            mut v0,
            mut v1,
            mut v2,
            mut v3,
        } = self;
        v0 = v0.wrapping_add(v1);
        v2 = v2.wrapping_add(v3);
        v1 = v1.rotate_left(13) ^ v0;
        v3 = v3.rotate_left(16) ^ v2;
        v0 = v0.rotate_left(32).wrapping_add(v3);
        v2 = v2.wrapping_add(v1);
        v3 = v3.rotate_left(21) ^ v0;
        v1 = v1.rotate_left(17) ^ v2;
        v2 = v2.rotate_left(32);
        State { v0, v1, v2, v3 }
    }

    #[tactic(auto, using(crate::proofs::Rounds::one_by_one))]
    fn rounds<const N: usize>(mut self) -> State
        ensures { result ≡ spec.sip_rounds N self }
    {
        for _ in 0..N {
            self = self.round();
        }
        self
    }

    /// The state with one more word of the message in it, after `C` rounds.
    #[tactic(auto, unfolding(crate::specs::SipHash::compressed))]
    pub(crate) fn compress<const C: usize>(mut self, word: u64) -> State
        ensures { result ≡ spec.compressed C self word }
    {
        self.v3 ^= word;
        let mut state = self.rounds::<C>();
        state.v0 ^= word;
        state
    }

    /// The hash, after `D` rounds.
    #[tactic(auto, unfolding(crate::specs::SipHash::finalized))]
    pub(crate) fn finalize<const D: usize>(mut self) -> u64
        ensures { result ≡ spec.finalized D self }
    {
        self.v2 ^= 0xff;
        let State { v0, v1, v2, v3 } = self.rounds::<D>();
        v0 ^ v1 ^ v2 ^ v3
    }
}
