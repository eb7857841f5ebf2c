// The checks of an enum tag and of an array size that search for a chain, and the check of a tag in the same struct.
#![tactic(auto)]

ghost use Rattle.std.specs.Prelude.{◌≡◌, ◌≤◌, length};
ghost use Rattle.meaning.specs.Lists.{holds};
ghost use Rattle.meaning.specs.Lookup.{find_type};
ghost use Rattle.meaning.specs.Sizes.{named_size_depends};
ghost use Rattle.meaning.specs.Violations.{find_layout_dependency_chain, check_enum_forward_reference_in_same_struct, check_enum_tag_layout_cycle, check_array_size_layout_cycle};
ghost use Rattle.bundle.specs.Definitions.{bundle_of};
ghost use Rattle.chain.specs.Found as found;
ghost use Rattle.search.specs.Work.{list_in, Lent, IfWanted};
ghost use Rattle.sizes.specs.Paths.{Fit};
ghost use Rattle.sizes.specs.Scan.{path_at};
ghost use Rattle.field_index.specs.Noted.{DefinitionsNoted};
ghost use Rattle.containers.specs.Containers.{held_in, held_shown, Known};
ghost use Rattle.cycles.specs.Shared.{bytes_of, Unchanged};
ghost use Rattle.checks.specs.Checks.{target_at, type_part, Checked, GraphOf, EdgesPrepared};

use bundle::{Definitions, Layout, Opened};
use checks::Finding;
use containers::Container;
use size_tests::TestAnswers;

mod shared;

pub use shared::Checks;

// The reference that is checked: the name of the definition that has it, where it is written, and whether its chain is wanted in the list,
// which is known only when the check runs. It goes to read_chain::find: with a kind of check for each, an `if` would stand in front of each
// call here too; an enum of two cases says no more; and read off behind the check, the chain would take one more function over `work`.
#[derive(Clone, Copy)]
pub struct Asked {
    pub name: u16,
    pub path: usize,
    pub wanted: bool,
}

// The chain between two names over the edges of the bundle, into the list if it is wanted there. All searches with the same slice `work`
// are to one name.
fn find_layout_dependency_chain(
    s: &[u8],
    layout: Layout,
    from: u16,
    to: u16,
    wanted: bool,
    edges: &[u16],
    work: &mut [u16],
) -> Option<usize>
    requires { GraphOf s.now layout × EdgesPrepared s.now layout edges.now × Lent layout.edges edges.now to work.old }
    ensures { IfWanted wanted (list_in layout.edges work.new) (λ list. found.Answers (find_layout_dependency_chain (bundle_of s.now) from to) list result) × Lent layout.edges edges.now to work.new }
{
    read_chain::find(edges, layout.edges, from, to, wanted, work)
}

// Type 1, for an enum in the struct `container` that the reference at `path` leads into; `held` is what is kept for the two names.
fn check_enum_forward_reference_in_same_struct(
    definitions: &Definitions<'_>,
    held: Container,
    name: u16,
    container: u16,
    path: usize,
    list: &mut [u16],
) -> Option<Finding>
    requires noted { DefinitionsNoted definitions.now.bytes.now definitions.now.places.now definitions.now.count }
    requires held { (container ≡ type_part definitions.now.bytes.now path) × (held ≡ held_shown (held_in (bundle_of definitions.now.bytes.now) name container)) }
    requires fit { Fit definitions.now.bytes.now path × (3 ≤ length list.old) }
    ensures { Checked definitions.now.bytes.now name list.new result (λ i. check_enum_forward_reference_in_same_struct (bundle_of definitions.now.bytes.now) i name (target_at definitions.now.bytes.now path)) }
{
    let field = checks::field_part(definitions.bytes, path)?;
    if !containers::stands_before(definitions, held, container, field) {
        return None;
    }
    checks::set_chain(list, container, name, field);
    Some(Finding::EnumForward(container, field))
}

// Whether the size of the first definition of the name depends on field references.
fn size_depends(answers: &mut TestAnswers<'_>, name: u16) -> bool
    ensures { (result ≡ holds (named_size_depends (bundle_of answers.old.definitions.bytes.now)) (find_type (bundle_of answers.old.definitions.bytes.now) name)) × (answers.new.definitions ≡ answers.old.definitions) }
{
    let Some(i) = lookup::definition_of(&answers.definitions, name) else {
        return false;
    };
    answers.type_size_depends_on_field_refs(i)
}

// Types 1 and 2, for a reference of an enum's tag. `known` has the answers for the names to which the tag refers.
pub fn check_enum_tag_layout_cycle(
    checks: &mut Checks<'_>,
    known: &mut [Option<Container>; bundle::DEFINITIONS],
    asked: Asked,
    work: &mut [u16],
) -> Option<Finding>
    requires lent { Lent checks.old.opened.layout.edges checks.old.edges.now asked.name work.old }
    requires fit { Fit (bytes_of checks.old) asked.path × Known (bytes_of checks.old) asked.name known.old }
    ensures { IfWanted asked.wanted (list_in checks.old.opened.layout.edges work.new) (λ list. Checked (bytes_of checks.old) asked.name list result (λ i. check_enum_tag_layout_cycle (bundle_of (bytes_of checks.old)) i asked.name (path_at (bytes_of checks.old) asked.path))) × Lent checks.old.opened.layout.edges checks.old.edges.now asked.name work.new × Known (bytes_of checks.old) asked.name known.new × Unchanged checks.old checks.new }
{
    let Opened {
        definitions,
        layout,
        ..
    } = checks.opened;
    let edges = checks.edges;
    let bytes = definitions.bytes;
    let name = asked.name;
    let path = asked.path;
    let target = sizes::parse_field_reference(bytes, path, layout.current);
    let held = containers::container_of(&definitions, known, name, target.name);
    let Container::Nowhere = held else {
        let list = 6 * layout.edges + 3;
        return check_enum_forward_reference_in_same_struct(
            &definitions,
            held,
            name,
            target.name,
            path,
            &mut work[list..],
        );
    };
    if !size_depends(&mut checks.answers, name) {
        return None;
    }
    let wanted = asked.wanted;
    let n = find_layout_dependency_chain(bytes, layout, target.name, name, wanted, edges, work)?;
    Some(Finding::EnumCycle(path, n))
}

// Type 3, for a reference of an array's size.
pub fn check_array_size_layout_cycle(
    s: &[u8],
    layout: Layout,
    asked: Asked,
    edges: &[u16],
    work: &mut [u16],
) -> Option<Finding>
    requires edges_prepared { EdgesPrepared s.now layout edges.now × Lent layout.edges edges.now asked.name work.old × Fit s.now asked.path }
    requires graph_of { GraphOf s.now layout }
    ensures { IfWanted asked.wanted (list_in layout.edges work.new) (λ list. Checked s.now asked.name list result (λ i. check_array_size_layout_cycle (bundle_of s.now) i asked.name (path_at s.now asked.path))) × Lent layout.edges edges.now asked.name work.new }
{
    let name = asked.name;
    let path = asked.path;
    let target = sizes::parse_field_reference(s, path, layout.current);
    let n = find_layout_dependency_chain(s, layout, target.name, name, asked.wanted, edges, work)?;
    Some(Finding::ArrayCycle(path, n))
}
