// A bundle that was read: its bytes with the places of its definitions.

ghost use Rattle.bundle.specs.Definitions.{Table};
ghost use Rattle.bundle.specs.Opened.{LayoutOf};
ghost use Rattle.bundle.specs.Facts.{Table-prop, LayoutOf-prop};

use crate::Layout;

// The definitions of a bundle: its bytes, the places of the definitions and of their names, and how many definitions there are.
#[derive(Clone, Copy)]
pub struct Definitions<'a> {
    pub bytes: &'a [u8],
    pub places: &'a [u16],
    pub count: usize,
    pub ghost table: { Table bytes.now count places.now } by { Table-prop bytes.now count places.now },
}

// The same, with the layout of the bundle.
#[derive(Clone, Copy)]
pub struct Opened<'a> {
    pub definitions: Definitions<'a>,
    pub layout: Layout,
    pub ghost layout_of: { LayoutOf definitions.bytes.now layout definitions.places.now } by { LayoutOf-prop definitions.bytes.now layout definitions.places.now },
}
