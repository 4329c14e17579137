//! The octets that a reader of messages in pieces keeps, by the nodes that have begun.
ghost use Rattle.std.specs.Prelude.{◌≡◌, ◌∷◌, [], ℕ, List, reverse, IfSome, IsNone, ⊤};
ghost use Rattle.asn_values.specs.View.{shape_of};
ghost use Rattle.asn_walk_feed.specs.Keeping.{octets_of, kept_in, GoesDown};

use crate::frame::Frame;
use asn_values::AsnType;

/// The octets that are kept of a value of the type, of which these nodes have begun, the outermost last: those of the
/// innermost node, where it lies in an open type field or is a UTF8String.
pub(crate) fn kept_in<'a, F>(ty: &AsnType, stack: &'a [Frame<F>]) -> &'a [u8]
    ensures { result.now ≡ kept_in (reverse stack.now) (shape_of ty.now) }
{
    let mut part = ty;
    let mut nodes = stack;
    while let Some((node, inner)) = nodes.split_last() {
        match node {
            Frame::Octets(octets) => {
                return match part {
                    AsnType::Utf8 => octets.elements.as_slice(),
                    _ => &[],
                };
            }
            Frame::Additions(_) | Frame::Added(_) => return octets_of(inner),
            Frame::Start(_) | Frame::Bitmap(_) => return &[],
            Frame::Elements(_) | Frame::Components(_) | Frame::Chosen(_) => {
                let Some(next) = part_of(part, node, inner) else {
                    return &[];
                };
                part = next;
                nodes = inner;
            }
        }
    }
    &[]
}

/// The octets of a field, of which these nodes have begun.
fn octets_of<F>(stack: &[Frame<F>]) -> &[u8]
    ensures { result.now ≡ octets_of (reverse stack.now) }
{
    match stack.split_last() {
        Some((Frame::Octets(octets), _)) => octets.elements.as_slice(),
        _ => &[],
    }
}

/// The type of the part in which a value of the type goes on where this node and, inside it, these have begun.
fn part_of<'t, F>(ty: &'t AsnType, node: &Frame<F>, inner: &[Frame<F>]) -> Option<&'t AsnType>
    requires { GoesDown node.now }
    ensures some { IfSome result (λ part. kept_in (node.now ∷ reverse inner.now) (shape_of ty.now)
        ≡ kept_in (reverse inner.now) (shape_of part.now)) }
    ensures none { IsNone result → kept_in (node.now ∷ reverse inner.now) (shape_of ty.now) ≡ [] }
{
    match (node, ty) {
        (Frame::Elements(_), AsnType::SeqOf(element, _)) => Some(element),
        (Frame::Components(read), AsnType::Seq { root, .. }) => {
            let root = root.as_slice();
            let index = read.entries.len();
            if index < root.len() {
                Some(&root[index].ty)
            } else {
                None
            }
        }
        (Frame::Chosen(index), AsnType::Choice { root, .. }) => {
            let root = root.as_slice();
            let index = *index;
            if index < root.len() {
                Some(&root[index].ty)
            } else {
                None
            }
        }
        _ => None,
    }
}
