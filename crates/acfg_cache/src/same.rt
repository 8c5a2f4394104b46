//! Whether two flags are equal in everything.

ghost use Rattle.std.specs.Prelude.{◌≡◌, ◌↔◌, IsTrue};
ghost use Rattle.acfg_cache.specs.Rows.{SameFields, SameLists, SameNames, SameState, SameWords};

use acfg_base::Text;
use acfg_decls::{Flag, Point};

/// Whether two flags are equal.
pub fn is_same(flag: &Flag, other: &Flag) -> bool
    ensures { IsTrue result ↔ (flag.now ≡ other.now) }
{
    same_fields(flag, other) && same_lists(flag, other)
}

// The same of all fields but the repeated ones.
fn same_fields(flag: &Flag, other: &Flag) -> bool
    ensures { IsTrue result ↔ SameFields flag.now other.now }
{
    same_names(flag, other) && same_words(flag, other) && same_state(flag, other)
}

// The same of the repeated fields.
fn same_lists(flag: &Flag, other: &Flag) -> bool
    ensures { IsTrue result ↔ SameLists flag.now other.now }
{
    same_texts(flag.bugs.as_slice(), other.bugs.as_slice())
        && same_points(flag.trace.as_slice(), other.trace.as_slice())
}

fn same_names(flag: &Flag, other: &Flag) -> bool
    ensures { IsTrue result ↔ SameNames flag.now other.now }
{
    same_text(flag.package.as_str(), other.package.as_str())
        && same_text(flag.name.as_str(), other.name.as_str())
        && same_text(flag.namespace.as_str(), other.namespace.as_str())
}

fn same_words(flag: &Flag, other: &Flag) -> bool
    ensures { IsTrue result ↔ SameWords flag.now other.now }
{
    flag.container.as_str() == other.container.as_str()
        && flag.description.as_str() == other.description.as_str()
}

fn same_state(flag: &Flag, other: &Flag) -> bool
    ensures { IsTrue result ↔ SameState flag.now other.now }
{
    flag.enabled == other.enabled
        && flag.writable == other.writable
        && flag.fixed == other.fixed
        && flag.exported == other.exported
        && flag.purpose == other.purpose
}

fn same_texts(texts: &[Text], others: &[Text]) -> bool
    ensures { IsTrue result ↔ (texts.now ≡ others.now) }
{
    if texts.len() != others.len() {
        return false;
    }
    for i in 0..texts.len() {
        if !is_same_text(&texts[i], &others[i]) {
            return false;
        }
    }
    true
}

fn is_same_text(text: &Text, other: &Text) -> bool
    ensures { IsTrue result ↔ (text.now ≡ other.now) }
{
    text.as_str() == other.as_str()
}

fn same_text(text: &str, other: &str) -> bool
    ensures { IsTrue result ↔ (text.now ≡ other.now) }
{
    text == other
}

fn same_points(points: &[Point], others: &[Point]) -> bool
    ensures { IsTrue result ↔ (points.now ≡ others.now) }
{
    if points.len() != others.len() {
        return false;
    }
    for i in 0..points.len() {
        if !is_same_point(&points[i], &others[i]) {
            return false;
        }
    }
    true
}

fn is_same_point(point: &Point, other: &Point) -> bool
    ensures { IsTrue result ↔ (point.now ≡ other.now) }
{
    point.source.as_str() == other.source.as_str()
        && point.enabled == other.enabled
        && point.writable == other.writable
}
