//! The messages of the cache, as a table of their fields.

ghost use Rattle.std.specs.Prelude.{◌≡◌};
ghost use Rattle.acfg_cache.specs.Table.{form, may_be};

/// A message within the cache, after AOSP aconfig's `aconfig_internal.proto`.
#[derive(Clone, Copy, Debug, PartialEq, Eq)]
pub enum Message {
    ParsedFlag,
    Tracepoint,
    Metadata,
}

/// What a field holds: a string, a number of an enum, a bool, or a message.
#[derive(Clone, Copy, Debug, PartialEq, Eq)]
pub enum Form {
    Text,
    State,
    Permission,
    Boolean,
    Purpose,
    Inner(Message),
}

impl Message {
    /// What a field of this number holds, where the message has it.
    pub fn form(self, number: u64) -> Option<Form>
        ensures { result ≡ form self number }
    {
        match self {
            Message::ParsedFlag => flag_form(number),
            Message::Tracepoint => point_form(number),
            Message::Metadata => metadata_form(number),
        }
    }
}

fn flag_form(number: u64) -> Option<Form>
    ensures { result ≡ form Message.ParsedFlag number }
{
    match number {
        1 | 2 | 3 | 4 | 5 | 11 => Some(Form::Text),
        6 => Some(Form::State),
        7 => Some(Form::Permission),
        8 => Some(Form::Inner(Message::Tracepoint)),
        9 | 10 => Some(Form::Boolean),
        12 => Some(Form::Inner(Message::Metadata)),
        _ => None,
    }
}

fn point_form(number: u64) -> Option<Form>
    ensures { result ≡ form Message.Tracepoint number }
{
    match number {
        1 => Some(Form::Text),
        2 => Some(Form::State),
        3 => Some(Form::Permission),
        _ => None,
    }
}

fn metadata_form(number: u64) -> Option<Form>
    ensures { result ≡ form Message.Metadata number }
{
    match number {
        1 => Some(Form::Purpose),
        _ => None,
    }
}

impl Form {
    /// Whether a number may stand in such a field.
    pub fn may_be(self, number: u64) -> bool
        ensures { result ≡ may_be self number }
    {
        match self {
            Form::State => number == 1 || number == 2,
            Form::Permission => number == 1 || number == 2,
            Form::Purpose => number <= 2,
            Form::Boolean => true,
            Form::Text => true,
            Form::Inner(_) => true,
        }
    }
}
