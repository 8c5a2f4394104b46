//! The parts of a template, and how each is spelled.

ghost use Rattle.std.specs.Prelude.{◌≡◌, ◌∷◌, ◌++◌, ◌<◌, MatchOption, length};
ghost use Rattle.acfg_base.specs.Bytes.{open_brace, close_brace};
ghost use Rattle.acfg_base.specs.Found.{Finds};
ghost use Rattle.acfg_dump.specs.Bodies.{begins, closed_name, BeginsNone, IsCutAt, IsWithout};
ghost use Rattle.acfg_dump.specs.Parts.{placeholder_name, spelled};

/// A value of a flag, by the placeholder that stands for it in a template.
#[derive(Clone, Copy, Debug, PartialEq, Eq)]
pub enum Placeholder {
    /// `{package}`
    Package,
    /// `{name}`
    Name,
    /// `{fully_qualified_name}`: the package and the name, joined by a dot.
    FullyQualifiedName,
    /// `{namespace}`
    Namespace,
    /// `{description}`
    Description,
    /// `{bug}`: the bugs, joined by `,`.
    Bug,
    /// `{state}`: `ENABLED` or `DISABLED`.
    State,
    /// `{state:bool}`: `true` or `false`.
    StateBool,
    /// `{permission}`: `READ_WRITE` or `READ_ONLY`.
    Permission,
    /// `{is_fixed_read_only}`: `true` or `false`.
    IsFixedReadOnly,
    /// `{is_exported}`: `true` or `false`.
    IsExported,
    /// `{container}`
    Container,
    /// `{purpose}`: the word of the purpose, and nothing where there is no metadata.
    Purpose,
    /// `{trace}`: the points, joined by `,`, each as `SOURCE=STATE/PERMISSION`.
    Trace,
}

const PLACEHOLDERS: [Placeholder; 14] = [
    Placeholder::Package,
    Placeholder::Name,
    Placeholder::FullyQualifiedName,
    Placeholder::Namespace,
    Placeholder::Description,
    Placeholder::Bug,
    Placeholder::State,
    Placeholder::StateBool,
    Placeholder::Permission,
    Placeholder::IsFixedReadOnly,
    Placeholder::IsExported,
    Placeholder::Container,
    Placeholder::Purpose,
    Placeholder::Trace,
];

impl Placeholder {
    // What stands between its braces.
    fn name(self) -> &'static str
        ensures { result.now ≡ placeholder_name self }
    {
        match self {
            Placeholder::Package => "package",
            Placeholder::Name => "name",
            Placeholder::FullyQualifiedName => "fully_qualified_name",
            Placeholder::Namespace => "namespace",
            Placeholder::Description => "description",
            Placeholder::Bug => "bug",
            Placeholder::State => "state",
            Placeholder::StateBool => "state:bool",
            Placeholder::Permission => "permission",
            Placeholder::IsFixedReadOnly => "is_fixed_read_only",
            Placeholder::IsExported => "is_exported",
            Placeholder::Container => "container",
            Placeholder::Purpose => "purpose",
            Placeholder::Trace => "trace",
        }
    }
}

/// A part of a template.
#[derive(Clone, Copy, Debug, PartialEq, Eq)]
pub enum Part {
    /// A byte that is printed as it is.
    Byte(u8),
    /// A value of the flag.
    Value(Placeholder),
}

/// The part that a text begins with and what is behind it; none where it begins with none.
pub fn split_part(text: &[u8]) -> Option<(Part, &[u8])>
    requires { 0 < length text.now }
    ensures cases { MatchOption result
        (BeginsNone spelled text.now)
        (λ found. text.now ≡ spelled found.0 ++ found.1.now) }
    ensures shorter { MatchOption result (Unit {0}) (λ found. length found.1.now < length text.now) }
{
    let (front, behind) = text.split_at(1);
    match front[0] {
        b'{' => split_open(behind),
        b'}' => split_close(behind),
        byte => Some((Part::Byte(byte), behind)),
    }
}

// The part of a text that is behind a `{`.
fn split_open(text: &[u8]) -> Option<(Part, &[u8])>
    ensures { MatchOption result
        (BeginsNone spelled (open_brace ∷ text.now))
        (λ found. open_brace ∷ text.now ≡ spelled found.0 ++ found.1.now) }
{
    if begins_with(text, b'{') {
        let (_brace, behind) = text.split_at(1);
        return Some((Part::Byte(b'{'), behind));
    }
    let (placeholder, behind) = split_placeholder(text)?;
    Some((Part::Value(placeholder), behind))
}

// The part of a text that is behind a `}`.
fn split_close(text: &[u8]) -> Option<(Part, &[u8])>
    ensures { MatchOption result
        (BeginsNone spelled (close_brace ∷ text.now))
        (λ found. close_brace ∷ text.now ≡ spelled found.0 ++ found.1.now) }
{
    if begins_with(text, b'}') {
        let (_brace, behind) = text.split_at(1);
        return Some((Part::Byte(b'}'), behind));
    }
    None
}

// Whether a text begins with a byte.
fn begins_with(text: &[u8], byte: u8) -> bool
    ensures { result ≡ begins byte text.now }
{
    match text.first() {
        Some(first) => *first == byte,
        None => false,
    }
}

// The placeholder whose name and `}` a text begins with.
fn split_placeholder(text: &[u8]) -> Option<(Placeholder, &[u8])>
    ensures { MatchOption result
        (BeginsNone closed_name text.now)
        (λ found. text.now ≡ closed_name found.0 ++ found.1.now) }
{
    let (name, behind) = cut_at(text, b'}')?;
    let placeholder = find_placeholder(name)?;
    Some((placeholder, behind))
}

// A text cut at the first byte of a kind.
fn cut_at(text: &[u8], byte: u8) -> Option<(&[u8], &[u8])>
    ensures { MatchOption result
        (IsWithout byte text.now)
        (λ cut. IsCutAt byte text.now cut.0.now cut.1.now) }
{
    let end = text.iter().position(|other| *other == byte)?;
    let (front, rest) = text.split_at(end);
    let (_byte, behind) = rest.split_at(1);
    Some((front, behind))
}

// The placeholder of this name.
fn find_placeholder(name: &[u8]) -> Option<Placeholder>
    ensures { Finds (λ placeholder. name.now ≡ placeholder_name placeholder) result }
{
    for placeholder in PLACEHOLDERS {
        if placeholder.name().as_bytes() == name {
            return Some(placeholder);
        }
    }
    None
}
