//! Replies: the line of each.

ghost use Rattle.std.specs.Prelude.{◌≡◌, [], ◌++◌, codes, IfOk, OnOk, string_bytes};
ghost use Rattle.std.specs.Fmt.{decimal};
ghost use Rattle.hex.specs.Hex.{encode_lower};
ghost use Rattle.acfg_model.specs.Refusals.{refusal_name, IsRefusal};
ghost use Rattle.acfg_daemon.specs.Transcript.{bad_line};
ghost use Rattle.acfg_daemon.specs.Replies.{boot_word, client_line, reply_line, IsNumbered};

use acfg_base::OutOfMemory;
use acfg_model::{Refusal, Reply};
use std::alloc::{AllocError, Global};

/// The line of a reply to a client: the client's number, a space, the reply and a line feed. The number of a
/// refusal is 1 to 12.
pub fn reply_text(alloc: Global, client: u8, reply: &Reply) -> Result<Vec<u8>, OutOfMemory>
    requires { IsNumbered reply.now }
    ensures { IfOk result (λ line. line.items ≡ reply_line client reply.now) }
{
    let mut line = String::new(alloc);
    put_reply(alloc, &mut line, client, reply)?;
    Ok(line.into_bytes())
}

/// Gives a text the line of a reply to a client in the place of all that it has.
pub fn put_reply(
    alloc: Global,
    line: &mut String,
    client: u8,
    reply: &Reply,
) -> Result<(), AllocError>
    requires { IsNumbered reply.now }
    ensures { OnOk result (string_bytes line.new ≡ reply_line client reply.now) }
{
    line.clear();
    match reply {
        Reply::Fine => put_words(line, client, "ok"),
        Reply::Updated(digest, count) => put_updated(alloc, line, client, digest, *count),
        Reply::Unchanged => put_words(line, client, "unchanged"),
        Reply::Value(value) => put_words(line, client, word_of_value(*value)),
        Reply::Refused(number) => put_refused(line, client, *number),
    }
}

/// Gives a text the line that tells a bad line by its number, in the place of all that it has.
pub fn put_bad_line(reply: &mut String, number: usize) -> Result<(), AllocError>
    ensures { OnOk result (string_bytes reply.new ≡ bad_line number) }
{
    reply.clear();
    write!(reply, "? bad-line {number}\n")
}

fn put_words(line: &mut String, client: u8, words: &str) -> Result<(), AllocError>
    requires { string_bytes line.old ≡ [] }
    ensures { OnOk result (string_bytes line.new ≡ client_line client words.now) }
{
    write!(line, "{client} {words}\n")
}

fn put_updated(
    alloc: Global,
    line: &mut String,
    client: u8,
    digest: &[u8; 32],
    count: u32,
) -> Result<(), AllocError>
    requires { string_bytes line.old ≡ [] }
    ensures { OnOk result (string_bytes line.new
        ≡ client_line client (codes "updated " ++ encode_lower digest.now ++ codes " " ++ decimal count)) }
{
    let digits = hex::encode(alloc, digest.as_slice())?;
    write!(line, "{client} updated {digits} {count}\n")
}

fn put_refused(line: &mut String, client: u8, number: u8) -> Result<(), AllocError>
    requires empty { string_bytes line.old ≡ [] }
    requires numbered { IsRefusal number }
    ensures { OnOk result (string_bytes line.new
        ≡ client_line client (codes "err " ++ decimal number ++ codes " " ++ refusal_name number)) }
{
    let name = name_of_refusal(number);
    write!(line, "{client} err {number} {name}\n")
}

fn word_of_value(value: Option<bool>) -> &'static str
    ensures { result.now ≡ boot_word value }
{
    match value {
        None => "none",
        Some(true) => "true",
        Some(false) => "false",
    }
}

fn name_of_refusal(number: u8) -> &'static str
    requires { IsRefusal number }
    ensures { result.now ≡ refusal_name number }
{
    match Refusal::numbered(number) {
        Some(refusal) => refusal.name(),
        None => unreachable!(),
    }
}
