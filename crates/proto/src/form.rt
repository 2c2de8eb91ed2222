//! The form that messages from outside must have: as prost writes them, with tags that rise, shortest varints and no unknown field.
ghost use Rattle.std.specs.Prelude.{◌≡◌};
ghost use Rattle.proto.specs.Form.{is_text, fits, absent, rule_at, form_of};
ghost use Rattle.proto.specs.FormLaw.{FormsStand, TablesRise};
ghost use Rattle.wire.specs.Read.{wire};

use wire::field::{Field, read_field};

/// What the field of a tag holds.
#[derive(Clone, Copy)]
pub enum Kind {
    /// ASCII, at most 64 octets.
    Text,
    /// Any octets, or a message that has a form of its own.
    Bytes,
    Uint64,
    Uint32,
    /// A signed number of 32 bits, as enumerations are, widened to 64.
    Int32,
}

/// A field that a message may have.
#[derive(Clone, Copy)]
pub struct Rule {
    pub tag: u32,
    pub kind: Kind,
    pub required: bool,
}

/// Whether these octets are a text: ASCII, and not longer than `limit`.
#[tactic(auto, using(crate::proofs::Forms::ascii_is))]
pub fn is_text(bytes: &[u8], limit: usize) -> bool
    ensures { result ≡ is_text limit bytes.now }
{
    bytes.len() <= limit && bytes.is_ascii()
}

impl Kind {
    fn fits(self, field: Field<'_>) -> bool
        ensures { result ≡ fits self (wire field.entry) }
    {
        match (self, field) {
            (Kind::Text, Field::Part { bytes, .. }) => is_text(bytes, 64),
            (Kind::Bytes, Field::Part { .. }) | (Kind::Uint64, Field::Varint { .. }) => true,
            (Kind::Uint32, Field::Varint { value, .. }) => value < 0x1_0000_0000,
            (Kind::Int32, Field::Varint { value, .. }) => {
                value < 0x8000_0000 || value >= 0xffff_ffff_8000_0000
            }
            _ => false,
        }
    }
}

impl Rule {
    // The place past the field of this rule: `at` itself where an optional one is absent.
    fn past(self, input: &[u8], at: usize) -> Option<usize>
        ensures { result ≡ rule_at self at input.now }
    {
        if at >= input.len() {
            return self.absent(at);
        }
        let (field, next) = read_field(input, at).ok()?;
        if field.tag() != self.tag {
            return self.absent(at);
        }
        (field.is_shortest(next - at) && self.kind.fits(field)).then_some(next)
    }

    // The place past a field that is not there, if it may be absent.
    fn absent(self, at: usize) -> Option<usize>
        ensures { result ≡ absent self at }
    {
        (!self.required).then_some(at)
    }
}

/// Whether a message has the fields of these rules, in their order, each as it should be, and nothing else.
pub fn conforms(rules: &[Rule], input: &[u8]) -> bool
    ensures { result ≡ form_of rules.now input.now }
{
    let mut at = 0;
    // No `try_fold`: of it a proof knows the calls of its closure, and not that each began where the one before it ended.
    for rule in rules {
        let Some(next) = rule.past(input, at) else {
            return false;
        };
        at = next;
    }
    at == input.len()
}

/// What `conforms` takes are just the messages written from fields that their table allows, in its order, for every table whose
/// tags rise, as those of datanodes and tokens do.
pub fn forms_stand()
    ensures form { FormsStand }
    ensures tables { TablesRise }
{}
