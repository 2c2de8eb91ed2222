//! Messages as they are written: parts that know their length and fill the octets lent to them.
ghost use Rattle.std.specs.Prelude.{◌≡◌, ℕ, ◌+◌, ◌*◌, ◌^◌, ◌<◌, ◌≤◌, List, [], ◌∷◌, ◌++◌, map, length, Some, None, ◌==◌};
ghost use Rattle.wire.specs.Fields.{WireField, varint, part, key, prefix, encode, encode_all};
ghost use Rattle.wire.specs.Read.{wire};
ghost use Rattle.wire.specs.One.{one_field};

use crate::field::Field;
use crate::varint::EncodedVarint;

/// What can be written as fields of a message.
pub trait Message {
    ghost fields: { Self → List WireField };

    fn encoded_len(&self) -> usize
        requires { length (encode_all (fields self.now)) < 2 ^ 64 }
        ensures { result ≡ length (encode_all (fields self.now)) };

    /// Fills `out`, which is as long as the message.
    fn encode(&self, out: &mut [u8])
        requires { length out.old ≡ length (encode_all (fields self.now)) }
        ensures { out.new ≡ encode_all (fields self.now) };
}

// Two parts, which fill `out`.
fn put_pair(out: &mut [u8], first: &[u8], second: &[u8])
    requires { length out.old ≡ length first.now + length second.now }
    ensures { out.new ≡ first.now ++ second.now }
{
    let size = out.len();
    let middle = first.len();
    out[0..middle].copy_from_slice(first);
    out[middle..size].copy_from_slice(second);
}

// A key: the tag, and the wire type in the lowest three bits.
fn key_len(tag: u32, wire_type: u64) -> usize
    requires { wire_type < 8 }
    ensures value { result ≡ length (key tag wire_type) }
    ensures bound { result ≤ 10 }
{
    EncodedVarint::of(8 * tag as u64 + wire_type).len()
}

// What stands before a part of `inner` octets: its key, and how long it is.
fn prefix_len(tag: u32, inner: usize) -> usize
    ensures value { result ≡ length (prefix tag inner) }
    ensures bound { result ≤ 20 }
{
    let key = EncodedVarint::of(8 * tag as u64 + 2);
    let size = EncodedVarint::of(inner as u64);
    key.len() + size.len()
}

fn put_prefix(out: &mut [u8], tag: u32, inner: usize)
    requires { length out.old ≡ length (prefix tag inner) }
    ensures { out.new ≡ prefix tag inner }
{
    let key = EncodedVarint::of(8 * tag as u64 + 2);
    let size = EncodedVarint::of(inner as u64);
    put_pair(out, key.as_slice(), size.as_slice());
}

// A key, and the octets of a number of fixed width behind it.
fn put_fixed(out: &mut [u8], tag: u32, wire_type: u64, octets: &[u8])
    requires { (wire_type < 8) × (length out.old ≡ length (key tag wire_type) + length octets.now) }
    ensures { out.new ≡ key tag wire_type ++ octets.now }
{
    let key = EncodedVarint::of(8 * tag as u64 + wire_type);
    put_pair(out, key.as_slice(), octets);
}

impl Field<'_> {
    /// Whether so many octets are all that the field needs: its key, its length and its number each in the shortest varint.
    pub fn is_shortest(&self, octets: usize) -> bool
        ensures { result ≡ (octets == length (encode (wire self.now))) }
    {
        match self {
            Field::Varint { tag, value, .. } => octets
                == key_len(*tag, 0) + EncodedVarint::of(*value).len(),
            Field::Fixed64 { tag, .. } => octets == key_len(*tag, 1) + 8,
            Field::Part { tag, bytes, .. } => {
                octets >= bytes.len() && octets - bytes.len() == prefix_len(*tag, bytes.len())
            }
            Field::Fixed32 { tag, .. } => octets == key_len(*tag, 5) + 4,
        }
    }
}

/// A field that is a number.
#[derive(Clone, Copy)]
pub struct Uint {
    pub tag: u32,
    pub value: u64,
}

impl Message for Uint {
    ghost fields = { λ f. varint f.tag f.value ∷ [] };

    fn encoded_len(&self) -> usize {
        let key = EncodedVarint::of(8 * self.tag as u64);
        let value = EncodedVarint::of(self.value);
        key.len() + value.len()
    }

    fn encode(&self, out: &mut [u8]) {
        let key = EncodedVarint::of(8 * self.tag as u64);
        let value = EncodedVarint::of(self.value);
        put_pair(out, key.as_slice(), value.as_slice());
    }
}

/// A field that is a part of the message, as a text or octets.
#[derive(Clone, Copy)]
pub struct Bytes<'a> {
    pub tag: u32,
    pub bytes: &'a [u8],
}

impl<'a> Message for Bytes<'a> {
    ghost fields = { λ f. part f.tag f.bytes.now ∷ [] };

    fn encoded_len(&self) -> usize {
        prefix_len(self.tag, self.bytes.len()) + self.bytes.len()
    }

    fn encode(&self, out: &mut [u8]) {
        let from = prefix_len(self.tag, self.bytes.len());
        let end = out.len();
        put_prefix(&mut out[0..from], self.tag, self.bytes.len());
        out[from..end].copy_from_slice(self.bytes);
    }
}

/// A field that is a message of its own.
#[derive(Drop)]
pub struct Nested<M> {
    pub tag: u32,
    pub message: M,
}

impl<M: Message> Message for Nested<M> {
    ghost fields = { λ f. part f.tag (encode_all (M.Message.fields f.message)) ∷ [] };

    fn encoded_len(&self) -> usize {
        let inner = self.message.encoded_len();
        prefix_len(self.tag, inner) + inner
    }

    fn encode(&self, out: &mut [u8]) {
        let inner = self.message.encoded_len();
        let from = prefix_len(self.tag, inner);
        let end = out.len();
        put_prefix(&mut out[0..from], self.tag, inner);
        self.message.encode(&mut out[from..end]);
    }
}

/// One message after another.
#[derive(Drop)]
pub struct Then<A, B>(pub A, pub B);

impl<A: Message, B: Message> Message for Then<A, B> {
    ghost fields = { λ t. A.Message.fields t.0 ++ B.Message.fields t.1 };

    fn encoded_len(&self) -> usize {
        self.0.encoded_len() + self.1.encoded_len()
    }

    fn encode(&self, out: &mut [u8]) {
        let size = out.len();
        let first = self.0.encoded_len();
        self.0.encode(&mut out[0..first]);
        self.1.encode(&mut out[first..size]);
    }
}

/// One field, of any kind.
#[derive(Clone, Copy)]
// `Field` is a field that was read, and has a place in its message; this one has none yet.
pub enum OneField<'a> {
    Uint(Uint),
    Fixed64 { tag: u32, value: u64 },
    Bytes(Bytes<'a>),
    Fixed32 { tag: u32, value: u32 },
}

impl<'a> Message for OneField<'a> {
    ghost fields = { λ f. one_field f ∷ [] };

    // Inlined, since whoever writes a row knows its kind: what the other kinds take then costs it nothing.
    #[inline(always)]
    fn encoded_len(&self) -> usize {
        match self {
            OneField::Uint(field) => field.encoded_len(),
            OneField::Fixed64 { tag, .. } => key_len(*tag, 1) + 8,
            OneField::Bytes(field) => field.encoded_len(),
            OneField::Fixed32 { tag, .. } => key_len(*tag, 5) + 4,
        }
    }

    #[inline(always)]
    fn encode(&self, out: &mut [u8]) {
        match self {
            OneField::Uint(field) => field.encode(out),
            OneField::Fixed64 { tag, value } => put_fixed(out, *tag, 1, &value.to_le_bytes()),
            OneField::Bytes(field) => field.encode(out),
            OneField::Fixed32 { tag, value } => put_fixed(out, *tag, 5, &value.to_le_bytes()),
        }
    }
}

/// How one row of a table is written as a field.
// Where a row hands its field out, as by `RowField`, `ByField` is an impl of this.
pub trait FieldOf<T> {
    ghost field: { T → WireField };

    fn field_len(row: &T) -> usize
        requires { length (encode_all (field row.now ∷ [])) < 2 ^ 64 }
        ensures { result ≡ length (encode_all (field row.now ∷ [])) };

    fn put_field(row: &T, out: &mut [u8])
        requires { length out.old ≡ length (encode_all (field row.now ∷ [])) }
        ensures { out.new ≡ encode_all (field row.now ∷ []) };
}

/// A repeated field: one for each row, in the order of the rows.
#[derive(Drop)]
pub struct Each<'a, T, F> {
    pub rows: &'a [T],
    pub by: F,
}

impl<'a, T, F: FieldOf<T>> Message for Each<'a, T, F> {
    ghost fields = { λ e. map F.FieldOf.field e.rows.now };

    fn encoded_len(&self) -> usize {
        let mut size = 0;
        // A loop, since that the length fits is known row by row, and `sum` asks for it beforehand.
        for row in self.rows {
            size += F::field_len(row);
        }
        size
    }

    fn encode(&self, out: &mut [u8]) {
        let mut at = 0;
        for row in self.rows {
            let next = at + F::field_len(row);
            F::put_field(row, &mut out[at..next]);
            at = next;
        }
    }
}
