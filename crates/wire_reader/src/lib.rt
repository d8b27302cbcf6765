// One field of a list: a tag byte, a length of two bytes (high first), a body.
#![tactic(auto)]

ghost use Rattle.std.specs.Prelude.{◌≡◌, ◌+◌, length, option_map, IfSome};
ghost use Rattle.wire.specs.Wire.{big, fields_of};
ghost use Rattle.wire_reader.specs.Field.{split_of, fields_by};

#[derive(Clone, Copy)]
pub struct Field<'a> {
    pub tag: u8,
    pub body: &'a [u8],
}

// Four bytes, high first. Stays (d): it says what wire calls `big`, for each of its callers.
#[tactic(auto, using(crate::proofs::Laws::big_by_bytes))]
pub fn be32(bytes: [u8; 4]) -> u32
    ensures { result ≡ big bytes }
{
    u32::from_be_bytes(bytes)
}

// The first field of a list and what stands behind it; None where no byte is left, or those left begin no whole field.
#[tactic(auto, using(crate::proofs::Laws::by_split))]
pub fn split_field(s: &[u8]) -> Option<(Field<'_>, &[u8])>
    ensures split { option_map (λ p. (p.0.tag, p.0.body.now, p.1.now)) result ≡ split_of s.now }
    ensures fields { fields_of s.now ≡ fields_by s.now (split_of s.now) }
    ensures shorter { IfSome result (λ p. length p.0.body.now + length p.1.now + 3 ≡ length s.now) }
{
    let [tag, high, low, rest @ ..] = s else {
        return None;
    };
    let length = usize::from(u16::from_be_bytes([*high, *low]));
    let (body, next) = rest.split_at_checked(length)?;
    Some((Field { tag: *tag, body }, next))
}
