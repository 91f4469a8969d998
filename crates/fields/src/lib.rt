// Tagged fields: a tag byte, a two-byte length, and that many bytes of contents. No knowledge of disks.
#![tactic(auto)]

ghost use Rattle.std.specs.Prelude.{◌≡◌};
ghost use Rattle.fields.specs.TaggedAt.{tagged_at, wanted_at};

// A field by its places: its contents lie from `start` up to `next`.
#[derive(Clone, Copy)]
pub struct Field {
    pub start: usize,
    pub next: usize,
    pub tag: u8,
}

// The field at a place, if a whole one stands there.
pub fn field_at(s: &[u8], at: usize) -> Option<Field>
    ensures { result ≡ tagged_at s.now at }
{
    if s.len() <= at {
        return None;
    }
    if s.len() - at < 3 {
        return None;
    }
    let start = at + 3;
    let len = base::be16(s, at + 1);
    if s.len() - start < len {
        return None;
    }
    Some(Field {
        tag: s[at],
        start: start,
        next: start + len,
    })
}

// The field at a place, if a whole one with this tag stands there.
pub fn wanted_at(s: &[u8], at: usize, tag: u8) -> Option<Field>
    ensures { result ≡ wanted_at s.now at tag }
{
    let f = field_at(s, at)?;
    if f.tag != tag {
        return None;
    }
    Some(f)
}
