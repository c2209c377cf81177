//! Where the tables of a track are.

ghost use Rattle.std.specs.Prelude.{◌≡◌};
ghost use Rattle.mp_boxes.specs.Child.{IsWithin};
ghost use Rattle.mp_chunks.specs.Table.{body_of};

use mp_boxes::Span;

/// The tables of a track that say how long its samples are and where they lie.
#[derive(Clone, Copy)]
pub struct Tables<'a> {
    /// The body of the box `moov`.
    pub moov: &'a [u8],
    /// The span of `stsc` in it.
    pub stsc: Span,
    /// The span of `stsz` or `stz2`.
    pub sizes: Span,
    /// Whether that is `stz2`.
    pub compact: bool,
    /// The span of `stco` or `co64`.
    pub offsets: Span,
    /// Whether that is `co64`.
    pub wide: bool,
}

impl<'a> Tables<'a> {
    /// The body of the box with that span.
    pub(crate) fn body(&self, span: Span) -> &'a [u8]
        requires { IsWithin self.now.moov.now span }
        ensures { result.now ≡ body_of self.now.moov.now span }
    {
        &self.moov[span.from..span.to]
    }
}
