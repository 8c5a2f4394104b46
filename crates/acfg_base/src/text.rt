//! Text that contracts see as its bytes, and that takes no memory of its own where it is short.

ghost use Rattle.std.specs.Prelude.{◌≡◌, IfOk, string_bytes};

use arrayvec::ArrayString;
use std::alloc::{AllocError, Global};
use std::marker::Model;

/// A text that contracts see as the list of its bytes: a name, a description, a path. One of up to 24 bytes takes no
/// memory.
#[derive(Debug, Drop)]
pub struct Text {
    form: Form,
}

// Where the bytes of a text stand.
#[derive(Debug, Drop)]
enum Form {
    Short(ArrayString<24>),
    Long(String),
}

impl Model for Text {
    ghost use Rattle.std.specs.Prelude.{ℕ, List, string_bytes};
    ghost use Rattle.std.specs.Coded.{coded_list, coded_ℕ};
    ghost use Rattle.acfg_base.specs.Shorts.{bytes_of};

    ghost Value = { List ℕ };

    ghost coded = { coded_list coded_ℕ };

    ghost view = { λ text. bytes_of text.form };
}

impl Text {
    /// The text of a string, which takes no memory.
    pub fn new(text: String) -> Text
        ensures { result ≡ string_bytes text }
    {
        let form = match ArrayString::from(text.as_str()) {
            Ok(short) => Form::Short(short),
            Err(_) => Form::Long(text),
        };
        Text { form }
    }

    /// A copy of a text.
    pub fn copy(alloc: Global, text: &str) -> Result<Text, AllocError>
        ensures { IfOk result (λ copy. copy ≡ text.now) }
    {
        match ArrayString::from(text) {
            Ok(short) => Ok(Text {
                form: Form::Short(short),
            }),
            Err(_) => Ok(Text {
                form: Form::Long(String::from_str(alloc, text)?),
            }),
        }
    }

    /// The text itself.
    pub fn as_str(&self) -> &str
        ensures { result.now ≡ self.now }
    {
        match &self.form {
            Form::Short(text) => text.as_str(),
            Form::Long(text) => text.as_str(),
        }
    }
}

impl Clone for Text {
    ghost is_clone = { λ text copy. copy ≡ text };

    fn clone(&self) -> Result<Text, AllocError> {
        match &self.form {
            Form::Short(text) => Ok(Text {
                form: Form::Short(*text),
            }),
            Form::Long(text) => Ok(Text {
                form: Form::Long(text.clone()?),
            }),
        }
    }
}
