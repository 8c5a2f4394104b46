//! The messages of declarations and values, as a table of their fields.

ghost use Rattle.std.specs.Prelude.{◌≡◌, Some};
ghost use Rattle.acfg_decls.specs.Walk.{field_of, number_of};

/// A message, after AOSP aconfig's `aconfig.proto`.
#[derive(Clone, Copy, Debug, PartialEq, Eq)]
pub enum Message {
    FlagDeclarations,
    Flag,
    Metadata,
    FlagValues,
    FlagValue,
}

/// How often a field stands in its message.
#[derive(Clone, Copy, Debug, PartialEq, Eq)]
pub enum Often {
    /// Once.
    Required,
    /// Once or never.
    Optional,
    /// Any number of times, and in lists.
    Repeated,
}

/// The words of an enum, each of which stands for a number.
#[derive(Clone, Copy, Debug, PartialEq, Eq)]
pub enum Words {
    Booleans,
    Purposes,
    States,
    Permissions,
}

/// What a field's values are.
#[derive(Clone, Copy, Debug, PartialEq, Eq)]
pub enum Form {
    String,
    /// One of these words, or a number that one of them stands for.
    Enum(Words),
    Inner(Message),
}

/// A field of a message.
#[derive(Clone, Copy, Debug, PartialEq, Eq)]
pub struct Field {
    pub often: Often,
    pub form: Form,
}

fn made(often: Often, form: Form) -> Option<Field>
    ensures { result ≡ Some (record { often = often; form = form }) }
{
    Some(Field { often, form })
}

/// The field of this name, where the message has it.
pub fn find_field(message: Message, name: &str) -> Option<Field>
    ensures { result ≡ field_of message name.now }
{
    match message {
        Message::FlagDeclarations => declarations_field(name),
        Message::Flag => flag_field(name),
        Message::Metadata => metadata_field(name),
        Message::FlagValues => values_field(name),
        Message::FlagValue => value_field(name),
    }
}

fn declarations_field(name: &str) -> Option<Field>
    ensures { result ≡ field_of Message.FlagDeclarations name.now }
{
    if name == "package" {
        made(Often::Required, Form::String)
    } else if name == "container" {
        made(Often::Optional, Form::String)
    } else if name == "flag" {
        made(Often::Repeated, Form::Inner(Message::Flag))
    } else {
        None
    }
}

fn flag_field(name: &str) -> Option<Field>
    ensures { result ≡ field_of Message.Flag name.now }
{
    if name == "name" || name == "namespace" || name == "description" {
        made(Often::Required, Form::String)
    } else if name == "bug" {
        made(Often::Repeated, Form::String)
    } else if name == "is_fixed_read_only" || name == "is_exported" {
        made(Often::Optional, Form::Enum(Words::Booleans))
    } else if name == "metadata" {
        made(Often::Optional, Form::Inner(Message::Metadata))
    } else {
        None
    }
}

fn metadata_field(name: &str) -> Option<Field>
    ensures { result ≡ field_of Message.Metadata name.now }
{
    if name == "purpose" {
        made(Often::Optional, Form::Enum(Words::Purposes))
    } else {
        None
    }
}

fn values_field(name: &str) -> Option<Field>
    ensures { result ≡ field_of Message.FlagValues name.now }
{
    if name == "flag_value" {
        made(Often::Repeated, Form::Inner(Message::FlagValue))
    } else {
        None
    }
}

fn value_field(name: &str) -> Option<Field>
    ensures { result ≡ field_of Message.FlagValue name.now }
{
    if name == "package" {
        made(Often::Required, Form::String)
    } else if name == "name" {
        made(Often::Required, Form::String)
    } else if name == "state" {
        made(Often::Required, Form::Enum(Words::States))
    } else if name == "permission" {
        made(Often::Required, Form::Enum(Words::Permissions))
    } else {
        None
    }
}

/// The number that a word stands for, where it is one of these.
pub fn word_number(words: Words, word: &str) -> Option<u64>
    ensures { result ≡ number_of words word.now }
{
    match words {
        Words::Booleans => boolean_number(word),
        Words::Purposes => purpose_number(word),
        Words::States => state_number(word),
        Words::Permissions => permission_number(word),
    }
}

fn boolean_number(word: &str) -> Option<u64>
    ensures { result ≡ number_of Words.Booleans word.now }
{
    if word == "true" || word == "True" || word == "t" {
        Some(1)
    } else if word == "false" || word == "False" || word == "f" {
        Some(0)
    } else {
        None
    }
}

fn purpose_number(word: &str) -> Option<u64>
    ensures { result ≡ number_of Words.Purposes word.now }
{
    if word == "PURPOSE_UNSPECIFIED" {
        Some(0)
    } else if word == "PURPOSE_FEATURE" {
        Some(1)
    } else if word == "PURPOSE_BUGFIX" {
        Some(2)
    } else {
        None
    }
}

fn state_number(word: &str) -> Option<u64>
    ensures { result ≡ number_of Words.States word.now }
{
    if word == "ENABLED" {
        Some(1)
    } else if word == "DISABLED" {
        Some(2)
    } else {
        None
    }
}

fn permission_number(word: &str) -> Option<u64>
    ensures { result ≡ number_of Words.Permissions word.now }
{
    if word == "READ_ONLY" {
        Some(1)
    } else if word == "READ_WRITE" {
        Some(2)
    } else {
        None
    }
}
