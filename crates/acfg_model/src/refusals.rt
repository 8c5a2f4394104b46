//! Why requests are refused.

ghost use Rattle.std.specs.Prelude.{◌≡◌, ◌≢◌, MatchOption};
ghost use Rattle.acfg_model.specs.Refusals.{name_of, number_of};

/// Why a request is refused.
#[derive(Clone, Copy, Debug, PartialEq, Eq)]
pub enum Refusal {
    /// The bytes are no request.
    BadRequest,
    /// No update of this container was ever accepted.
    UnknownContainer,
    /// The flag isn't in the release.
    UnknownFlag,
    /// The flag's kind in the release isn't `ReadWrite`.
    ReadOnly,
    /// The container wasn't booted yet.
    NoBootCopy,
    /// The boot copy lacks the flag, or its kind there isn't `ReadWrite`.
    NotBooted,
    /// The flag has no local override.
    NoOverride,
    /// One of the update's files isn't there.
    MissingFile,
    /// The update's files are refused.
    BadImage,
    /// The update's files don't belong together, or are of another container.
    FilesDisagree,
    /// The container would be the 257th.
    TooManyContainers,
    /// The request has more bytes than a request may have.
    TooLong,
}

impl Refusal {
    /// The number by which replies tell it.
    pub fn number(self) -> u8
        ensures { result ≡ number_of self }
    {
        self.told_as().0
    }

    /// The name by which replies tell it.
    pub fn name(self) -> &'static str
        ensures { result.now ≡ name_of self }
    {
        self.told_as().1
    }

    // The number and the name by which replies tell it.
    fn told_as(self) -> (u8, &'static str)
        ensures number { result.0 ≡ number_of self }
        ensures name { result.1.now ≡ name_of self }
    {
        match self {
            Refusal::BadRequest => (1, "bad-request"),
            Refusal::UnknownContainer => (2, "unknown-container"),
            Refusal::UnknownFlag => (3, "unknown-flag"),
            Refusal::ReadOnly => (4, "read-only"),
            Refusal::NoBootCopy => (5, "no-boot-copy"),
            Refusal::NotBooted => (6, "not-booted"),
            Refusal::NoOverride => (7, "no-override"),
            Refusal::MissingFile => (8, "missing-file"),
            Refusal::BadImage => (9, "bad-image"),
            Refusal::FilesDisagree => (10, "files-disagree"),
            Refusal::TooManyContainers => (11, "too-many-containers"),
            Refusal::TooLong => (12, "too-long"),
        }
    }

    /// The refusal that replies tell by a number, where there is one.
    pub fn numbered(number: u8) -> Option<Refusal>
        ensures { MatchOption result
            ((refusal : _) → number ≢ number_of refusal) (λ refusal. number ≡ number_of refusal) }
    {
        match number {
            1 => Some(Refusal::BadRequest),
            2 => Some(Refusal::UnknownContainer),
            3 => Some(Refusal::UnknownFlag),
            4 => Some(Refusal::ReadOnly),
            5 => Some(Refusal::NoBootCopy),
            6 => Some(Refusal::NotBooted),
            7 => Some(Refusal::NoOverride),
            8 => Some(Refusal::MissingFile),
            9 => Some(Refusal::BadImage),
            10 => Some(Refusal::FilesDisagree),
            11 => Some(Refusal::TooManyContainers),
            12 => Some(Refusal::TooLong),
            _ => None,
        }
    }
}
