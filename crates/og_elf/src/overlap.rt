//! The first program header that overlaps an earlier one.
//!
//! Headers are apart from each other where, sorted by address, neighbours are. With more headers an
//! overlap stays, so where there is one, the first header that makes one is found by halving.

ghost use Rattle.std.specs.Prelude.{◌≡◌, ◌≤◌, ◌<◌, [], All, IfOk, false, map};
ghost use Rattle.std.specs.Option.{option_map};
ghost use Rattle.std.specs.List.Sorted.{IsNonDecreasingBy};
ghost use Rattle.og_elf.specs.Span.{IsWithin};
ghost use Rattle.og_elf.specs.Segment.{are_apart};
ghost use Rattle.og_elf.specs.Elf.{overlapping, span_of_header};

use crate::header::Header;
use crate::segment::Span;
use og_base::NoMemory;
use std::alloc::Global;

/// The first header that overlaps one of the earlier ones.
pub(crate) fn first_overlap(alloc: Global, loads: &[Header]) -> Result<Option<Header>, NoMemory>
    requires { All (λ h. IsWithin (span_of_header h)) loads.now }
    ensures { IfOk result (λ header. header ≡ overlapping [] loads.now) }
{
    let spans = spans_of(alloc, loads)?;
    if are_apart(alloc, spans.as_slice())? {
        return Ok(None);
    }
    let mut apart = 0;
    let mut too_many = loads.len();
    while too_many - apart > 1 {
        let middle = apart + (too_many - apart) / 2;
        if are_apart(alloc, &spans.as_slice()[..middle])? {
            apart = middle;
        } else {
            too_many = middle;
        }
    }
    Ok(Some(loads[apart]))
}

/// Where the headers' segments lie.
fn spans_of(alloc: Global, loads: &[Header]) -> Result<Vec<Span>, NoMemory>
    ensures { IfOk result (λ spans. spans.items ≡ map span_of_header loads.now) }
{
    loads.iter().map(|header| header.span()).collect(alloc)
}

/// Whether no two of the spans overlap.
fn are_apart(alloc: Global, spans: &[Span]) -> Result<bool, NoMemory>
    requires { All IsWithin spans.now }
    ensures { IfOk result (λ apart. apart ≡ are_apart spans.now) }
{
    let mut sorted = Vec::from_slice(alloc, spans)?;
    sorted.sort_by_key(|span| span.addr)?;
    Ok(neighbours_are_apart(sorted.as_slice()))
}

/// Whether no two of the spans overlap, of spans with rising addresses.
fn neighbours_are_apart(spans: &[Span]) -> bool
    requires within { All IsWithin spans.now }
    requires rising { IsNonDecreasingBy (λ span. span.addr) spans.now }
    ensures { result ≡ are_apart spans.now }
{
    for i in 1..spans.len() {
        if spans[i - 1].overlaps(&spans[i]) {
            return false;
        }
    }
    true
}
