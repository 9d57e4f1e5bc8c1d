ghost use Rattle.std.specs.Prelude.{Some, flat_map};
ghost use Rattle.curp_msg.specs.Text.{hash_text, nodes_text, span_text, spaced_id, spaced_part, spaced_request, spans_text};

use crate::PartConfig;
use curp_base::Shared;
use curp_cmd::{Decimal, NodeId, Request, RequestId};
use std::fmt;

/// Numbers of requests, with a space before each.
#[derive(Drop)]
pub(crate) struct Ids<'a>(pub(crate) &'a [RequestId]);

impl fmt::Display for Ids<'_> {
    ghost output = { λ ids. Some (flat_map spaced_id ids.0.now) };

    fn fmt<W: fmt::Write>(&self, f: &mut fmt::Formatter<W>) -> fmt::Result {
        for id in self.0 {
            write!(f, " {id}")?;
        }
        Ok(())
    }
}

/// The numbers of requests that are there whole, with a space before each.
#[derive(Drop)]
pub(crate) struct Requests<'a>(pub(crate) &'a [Shared<Request>]);

impl fmt::Display for Requests<'_> {
    ghost output = { λ requests. Some (flat_map spaced_request requests.0.now) };

    fn fmt<W: fmt::Write>(&self, f: &mut fmt::Formatter<W>) -> fmt::Result {
        for request in self.0 {
            write!(f, " {}", request.id)?;
        }
        Ok(())
    }
}

/// Nodes with a plus between.
#[derive(Drop)]
pub(crate) struct Nodes<'a>(pub(crate) &'a [NodeId]);

impl fmt::Display for Nodes<'_> {
    ghost output = { λ nodes. Some (nodes_text nodes.0.now) };

    fn fmt<W: fmt::Write>(&self, f: &mut fmt::Formatter<W>) -> fmt::Result {
        if let Some((first, others)) = self.0.split_first() {
            write!(f, "{first}")?;
            for node in others {
                write!(f, "+{node}")?;
            }
        }
        Ok(())
    }
}

/// A hash, as 16 lower-case hexadecimal digits.
#[derive(Clone, Copy)]
pub(crate) struct Hash(pub(crate) u64);

impl fmt::Display for Hash {
    ghost output = { λ hash. Some (hash_text hash.0) };

    fn fmt<W: fmt::Write>(&self, f: &mut fmt::Formatter<W>) -> fmt::Result {
        let hash = self.0;
        write!(f, "{hash:016x}")
    }
}

/// The hashes from the first to the second, both counted.
#[derive(Clone, Copy)]
pub(crate) struct Span(pub(crate) (u64, u64));

impl fmt::Display for Span {
    ghost output = { λ span. Some (span_text span.0) };

    fn fmt<W: fmt::Write>(&self, f: &mut fmt::Formatter<W>) -> fmt::Result {
        let (lo, hi) = self.0;
        write!(f, "{}-{}", Hash(lo), Hash(hi))
    }
}

/// Spans with a plus between.
#[derive(Drop)]
pub(crate) struct SpanList<'a>(pub(crate) &'a [(u64, u64)]);

impl fmt::Display for SpanList<'_> {
    ghost output = { λ spans. Some (spans_text spans.0.now) };

    fn fmt<W: fmt::Write>(&self, f: &mut fmt::Formatter<W>) -> fmt::Result {
        if let Some((first, others)) = self.0.split_first() {
            write!(f, "{}", Span(*first))?;
            for span in others {
                write!(f, "+{}", Span(*span))?;
            }
        }
        Ok(())
    }
}

/// The partitions of a configuration, with a space before each.
#[derive(Drop)]
pub(crate) struct Parts<'a>(pub(crate) &'a [PartConfig]);

impl fmt::Display for Parts<'_> {
    ghost output = { λ parts. Some (flat_map spaced_part parts.0.now) };

    fn fmt<W: fmt::Write>(&self, f: &mut fmt::Formatter<W>) -> fmt::Result {
        for part in self.0 {
            write!(f, " {part}")?;
        }
        Ok(())
    }
}
