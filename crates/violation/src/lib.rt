// Writes the record that a report has for a violation. Bytes for which the lent buffer has no place are counted and not written.
#![tactic(auto)]

ghost use Rattle.std.specs.Prelude.{◌≡◌, List, [], ◌∷◌, ℕ, ◌+◌, ◌*◌, ◌≤◌, ◌<◌, length};
ghost use Rattle.names.specs.Documents.{bytes};
ghost use Rattle.meaning.specs.Report.{two_bytes, chain_items, violation_items};
ghost use Rattle.meaning.specs.Violations.{violation};
ghost use Rattle.violation.specs.Records.{Puts, farthest, longest, path_bytes, padded};
ghost use Rattle.violation.specs.Kinds.{type_number};
ghost use Rattle.violation.specs.Decoding.{Decodes};

// The type of a violation, in the order of document 01's numbers.
#[derive(Clone, Copy, Debug, PartialEq, Eq)]
pub enum Kind {
    EnumForward,
    EnumCycle,
    ArrayCycle,
    FieldForward,
    VariableElement,
    JaggedReference,
    JaggedInline,
    NestedJagged,
}

impl From<Kind> for u8 {
    ghost from_gives = { λ kind n. n ≡ type_number kind };

    fn from(kind: Kind) -> u8 {
        match kind {
            Kind::EnumForward => 1,
            Kind::EnumCycle => 2,
            Kind::ArrayCycle => 3,
            Kind::FieldForward => 4,
            Kind::VariableElement => 5,
            Kind::JaggedReference => 6,
            Kind::JaggedInline => 7,
            Kind::NestedJagged => 8,
        }
    }
}

// A number that no type of violation has.
#[derive(Clone, Copy)]
pub struct NoKind(pub u8);

impl TryFrom<u8> for Kind {
    type Error = NoKind;

    ghost try_from_gives = { Decodes };

    fn try_from(n: u8) -> Result<Self, NoKind> {
        match n {
            1 => Ok(Kind::EnumForward),
            2 => Ok(Kind::EnumCycle),
            3 => Ok(Kind::ArrayCycle),
            4 => Ok(Kind::FieldForward),
            5 => Ok(Kind::VariableElement),
            6 => Ok(Kind::JaggedReference),
            7 => Ok(Kind::JaggedInline),
            8 => Ok(Kind::NestedJagged),
            _ => Err(NoKind(n)),
        }
    }
}

// A path of at most four names; unused ones are 0. There is no heap, and the count and the four places are those that a record has: of a
// slice both would be made here again, and callers would have to keep the array that it is of.
#[derive(Clone, Copy)]
pub struct Path {
    pub count: u8,
    pub names: [u16; 4],
}

// What a violation's record says beside the definition, its name and the chain.
#[derive(Clone, Copy)]
pub struct Record {
    pub kind: Kind,
    pub path: Path,
}

// Writes a byte where there is a place for it. Returns the place behind it, as all functions here do. The place stays a parameter: a
// struct of the buffer and the place would be made anew for a record alone, behind the head that stands before it.
pub fn put_byte(out: &mut [u8], at: usize, value: u8) -> usize
    requires { at < farthest }
    ensures { Puts (value ∷ []) out.old at out.new result }
{
    let next = at + 1;
    if at < out.len() {
        out[at] = value;
    }
    next
}

// Writes bytes, one behind the other, and each by itself: a copy of the slice would take memcpy, and of the C library the interface asks
// for memset alone.
pub fn put_bytes(out: &mut [u8], at: usize, list: &[u8]) -> usize
    requires { at + length list.now ≤ farthest }
    ensures { Puts list.now out.old at out.new result }
{
    let mut next = at;
    for &byte in list {
        next = put_byte(out, next, byte);
    }
    next
}

// Writes a number in two bytes, low byte first. Each is stored by itself: copied as two, a report of long chains takes twice as long.
pub fn put_two(out: &mut [u8], at: usize, value: u16) -> usize
    requires { at + 1 < farthest }
    ensures { Puts (bytes (two_bytes value)) out.old at out.new result }
{
    let bytes = value.to_le_bytes();
    let next = put_byte(out, at, bytes[0]);
    put_byte(out, next, bytes[1])
}

// Writes the count of a path and its four names.
fn put_path(out: &mut [u8], at: usize, path: Path) -> usize
    requires { at + 8 < farthest }
    ensures { Puts (path_bytes path) out.old at out.new result }
{
    let mut next = put_byte(out, at, path.count);
    for name in path.names {
        next = put_two(out, next, name);
    }
    next
}

// Writes the length of a chain, and 7F and the name for each of its names.
fn put_chain(out: &mut [u8], at: usize, chain: &[u16]) -> usize
    requires length_le_longest { length chain.now ≤ longest }
    requires length_bound { at + 2 + 3 * length chain.now ≤ farthest }
    ensures { Puts (bytes (chain_items chain.now)) out.old at out.new result }
{
    let mut next = put_two(out, at, chain.len() as u16);
    for &name in chain {
        let behind = put_byte(out, next, 0x7F);
        next = put_two(out, behind, name);
    }
    next
}

// Writes the record of a violation of a definition by its number, whose name is `name`. A record behind the end is only counted.
pub fn put_violation(
    out: &mut [u8],
    at: usize,
    definition: u16,
    name: u16,
    found: Record,
    chain: &[u16],
) -> usize
    requires length_le_longest { length chain.now ≤ longest }
    requires length_bound { at + 16 + 3 * length chain.now ≤ farthest }
    ensures { (names : List ℕ) → length names ≤ 4 → found.path ≡ padded names → Puts (bytes (violation_items (violation (type_number found.kind) definition name names chain.now))) out.old at out.new result }
{
    if out.len() <= at {
        return at + 16 + 3 * chain.len();
    }
    let number = put_byte(out, at, 0x70 + u8::from(found.kind));
    let named = put_two(out, number, definition);
    let count = put_two(out, named, name);
    let link = put_path(out, count, found.path);
    put_chain(out, link, chain)
}
