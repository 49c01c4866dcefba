//! Fields, each in its turn: running sums of their sizes.

ghost use Rattle.std.specs.Prelude.{◌≡◌, ◌<◌, ◌≤◌, ◌+◌, None, IfSome};
ghost use Rattle.pc_offsets.specs.Layout.{AreAligned, IsKept, aligned, end_of, size_of, start_of};

/// How many fields a context has.
pub(crate) const FIELDS: usize = 12;

/// A field: so many entries of so many bytes each, from a multiple of the alignment on.
#[derive(Clone, Copy)]
pub(crate) struct Field {
    pub(crate) count: u32,
    pub(crate) size: u8,
    pub(crate) align: u8,
}

/// Where fields begin, and where the last of them ends.
#[derive(Clone, Copy)]
pub(crate) struct Kept {
    pub(crate) starts: [u32; FIELDS],
    pub(crate) size: u32,
}

/// The first multiple of an alignment that isn't before a place.
fn align_up(place: u32, align: u8) -> u64
    requires { 0 < align }
    ensures is { result ≡ aligned align place }
    ensures near { result ≤ place + 255 }
{
    let align = u64::from(align);
    (u64::from(place) + (align - 1)) / align * align
}

/// Where a field begins whose turn comes at a place, and where it ends; nothing where that is past the greatest `u32`.
fn place(at: u32, field: Field) -> Option<(u32, u32)>
    requires { 0 < field.align }
    ensures placed { IfSome result (λ r. (r.0 ≡ start_of at field) × (r.1 ≡ end_of at field) × (r.1 ≤ 4294967295)) }
    ensures past { result ≡ None → 4294967295 < end_of at field }
{
    let start = align_up(at, field.align);
    let end = start + u64::from(field.count) * u64::from(field.size);
    match u32::try_from(end) {
        Ok(end) => Some((start as u32, end)),
        Err(_) => None,
    }
}

/// The offsets and the size of a layout; nothing where that is past the greatest `u32`.
pub(crate) fn lay_out(fields: &[Field; FIELDS]) -> Option<Kept>
    requires { AreAligned fields.now }
    ensures kept { IfSome result (λ kept. IsKept fields.now kept.starts kept.size) }
    ensures past { result ≡ None → 4294967295 < size_of fields.now }
{
    let mut starts = [0; FIELDS];
    let mut at = 0;
    for n in 0..FIELDS {
        let (start, end) = place(at, fields[n])?;
        starts[n] = start;
        at = end;
    }
    Some(Kept { starts, size: at })
}
