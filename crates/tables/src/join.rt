//! Two tables joined.
ghost use Rattle.std.specs.Prelude.{◌≡◌, length};
ghost use Rattle.trellis.specs.Lists.{tab};
ghost use Rattle.tables.specs.inner.Tables.{risen_at};

use crate::layout::Shape;

/// e: the best of e and each of the q rows of u joined with the table w.
pub fn join(shape: Shape, u: &[u8], w: &[u8], e: &mut [u8])
    requires u_len { (length u.now ≡ shape.l) × ((length w.now ≡ shape.l) × (length e.old ≡ shape.l)) }
    ensures { e.new ≡ tab (risen_at shape.greatest shape.q u.now w.now e.old) shape.l }
{
    vjoin::join(shape.greatest, shape.q, u, w, e);
}
