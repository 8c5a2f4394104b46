//! Keys that come twice.

ghost use Rattle.std.specs.Prelude.{◌≡◌, [], ◌<◌, IfOk, IsPermutation, length, map as mapped, Some, min, unwrap_or};
ghost use Rattle.std.specs.Option.{option_map};
ghost use Rattle.std.specs.List.Sorted.{IsSorted};
ghost use Rattle.acfg_images.specs.Faults.{twice};
ghost use Rattle.acfg_images.specs.Code.{KnowBuckets, links_of};
ghost use Rattle.acfg_images.specs.Twins.{Rise, HasTwin, IsLeast, row_of, row_cmp, have_one_key as one_key};

use crate::links::NodeLink;
use std::alloc::AllocError;

/// A node's bucket, by which most keys differ, its key, and where it stands.
pub(crate) type Row<'a> = (u32, Option<u32>, &'a str, u32);

/// Where the first node stands whose key an earlier node has.
pub(crate) fn first_twice<'a>(
    rows: Vec<Row<'a>>,
    links: &[NodeLink<'a>],
) -> Result<Option<u32>, AllocError>
    requires rows { rows.items ≡ [] }
    requires buckets { KnowBuckets links.now }
    requires rising { Rise (links_of links.now) }
    ensures { IfOk result (λ at. at ≡ twice (links_of links.now)) }
{
    let rows = sorted_rows(rows, links)?;
    Ok(least_twin(&rows))
}

fn sorted_rows<'a>(rows: Vec<Row<'a>>, links: &[NodeLink<'a>]) -> Result<Vec<Row<'a>>, AllocError>
    requires { rows.items ≡ [] }
    ensures permutation { IfOk result (λ rows. IsPermutation (mapped row_of links.now) rows.items) }
    ensures sorted { IfOk result (λ rows. IsSorted row_cmp rows.items) }
{
    let mut rows = list_rows(rows, links)?;
    sort_rows(&mut rows);
    Ok(rows)
}

fn list_rows<'a>(mut rows: Vec<Row<'a>>, links: &[NodeLink<'a>]) -> Result<Vec<Row<'a>>, AllocError>
    requires { rows.items ≡ [] }
    ensures { IfOk result (λ rows. rows.items ≡ mapped row_of links.now) }
{
    for link in links {
        rows.push(row(*link))?;
    }
    Ok(rows)
}

fn row(link: NodeLink<'_>) -> Row<'_>
    ensures { result ≡ row_of link.entry }
{
    (link.bucket, link.owner, link.name, link.at)
}

fn sort_rows(rows: &mut [Row<'_>])
    ensures permutation { IsPermutation rows.old rows.new }
    ensures sorted { IsSorted row_cmp rows.new }
{
    settle(rows);
    rows.sort_unstable();
}

// Moves rows back to their places where these are near, as in a lawful set, which stands in order of buckets. So the
// sort finds them in order. There are at most as many moves as rows.
fn settle(rows: &mut [Row<'_>])
    ensures { IsPermutation rows.old rows.new }
{
    let mut moves = rows.len();
    for i in 1..rows.len() {
        moves = settle_one(rows, i, moves);
    }
}

fn settle_one(rows: &mut [Row<'_>], at: usize, moves: usize) -> usize
    requires { at < length rows.old }
    ensures { IsPermutation rows.old rows.new }
{
    let mut moves = moves;
    let mut at = at;
    while at > 0 && moves > 0 && rows[at] < rows[at - 1] {
        rows.swap(at - 1, at);
        at -= 1;
        moves -= 1;
    }
    moves
}

// The least place of a row whose key is that of the row before it.
fn least_twin(rows: &[Row<'_>]) -> Option<u32>
    ensures { IsLeast (HasTwin rows.now (length rows.now)) result }
{
    let mut least = None;
    for k in 1..rows.len() {
        if have_one_key(rows[k - 1], rows[k]) {
            least = lesser(least, rows[k].3);
        }
    }
    least
}

fn have_one_key(a: Row<'_>, b: Row<'_>) -> bool
    ensures { result ≡ one_key a.entry b.entry }
{
    a.1 == b.1 && a.2 == b.2
}

fn lesser(least: Option<u32>, at: u32) -> Option<u32>
    ensures { result ≡ Some (unwrap_or (option_map (λ other. min other at) least) at) }
{
    match least {
        Some(other) => Some(other.min(at)),
        None => Some(at),
    }
}
