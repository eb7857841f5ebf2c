// The two size tests and the jagged test: whether the size of a type depends on field references, and whether a jagged array is inside it.
#![tactic(auto)]

ghost use Rattle.std.specs.Prelude.{true, false, not, List, ◌∷◌, [], ◌≡◌, ◌≤◌, ◌<◌, length, get_or, Ok};
ghost use Rattle.meaning.specs.Kinds.{OfType, Enum, Array, form_of};
ghost use Rattle.meaning.specs.Limits.{size_limit};
ghost use Rattle.meaning.specs.ReadType.{read_ty};
ghost use Rattle.meaning.specs.Sizes.{inline_size_depends, contains_jagged_array};
ghost use Rattle.bundle.specs.View.{step_of, Reads};
ghost use Rattle.bundle.specs.Definitions.{type_at, bundle_of, Table};
ghost use Rattle.scan.specs.Parts.{Part};
ghost use Rattle.scan.specs.Scan.{Run, asks_sizes, asks_jagged};
ghost use Rattle.sizes.specs.Tests.{answer_at, Acyclic, definition_size_depends, Kept};
ghost use Rattle.size_tests.specs.Scans.{is_jagged, inline_holds, some_counts, Ready, ToTest, HeadTested};

use bundle::{Definitions, Form, TypeForm};
use scan::Walk;

// What a type is tested for: that its size depends on field references, or that a jagged array is inside it.
#[derive(Clone, Copy)]
enum TestOf {
    Size,
    Jagged,
}

// Where the records are stopped at for a test.
fn walk_of(test: TestOf) -> Walk
    ensures { (asks_sizes result ≡ not (is_jagged test)) × (asks_jagged result ≡ is_jagged test) }
{
    match test {
        TestOf::Size => Walk::Sizes,
        TestOf::Jagged => Walk::Jagged,
    }
}

// The tests of a definition's own record promise `HeadTested` of `s`, `at` and `end`: a struct for these would be made in named_type_test
// alone, and each of the four would take it apart, as `let Head { s, at, end, .. } = *head;`, and promise the same. Those over `kept`
// promise `Kept`: a struct of `definitions`, `test` and `kept` would hold it, and each of the three would promise instead that the first
// two stay.

// The size test by the own record of the enum at `at`, with the tag behind it: None where it holds, or where the records start that
// it is up to. The tag counts only if the variants are not all primitives of one size.
fn enum_head_test(s: &[u8], at: usize, end: usize) -> Option<usize>
    requires { (length s.now ≤ size_limit) × (Ok end ≡ step_of (read_ty 24 s.now at)) × (form_of (get_or s.now at 0) ≡ OfType Enum) }
    ensures { HeadTested s.now false at end result }
{
    let (n, next) = bundle::count_at(s, at + 1).ok()?;
    let after = bundle::expr_at(s, next, bundle::DEPTH_INSIDE).ok()?;
    let passed = sizes::is_constant_to(s, next, after, bundle::DEPTH_INSIDE)
        || sizes::one_size(s, after, bundle::DEPTH_INSIDE, n);
    passed.then_some(after)
}

// The same for the size of the array at `at`: its size counts, and not its element.
fn array_head_test(s: &[u8], at: usize, end: usize) -> Option<usize>
    requires { (length s.now ≤ size_limit) × (Ok end ≡ step_of (read_ty 24 s.now at)) × (form_of (get_or s.now at 0) ≡ OfType Array) }
    ensures { HeadTested s.now false at end result }
{
    sizes::is_constant(s, at + 11, bundle::DEPTH_INSIDE).then_some(end)
}

// The same for a definition whose type was read from `at` to `end`.
fn size_head_test(s: &[u8], at: usize, end: usize) -> Option<usize>
    requires { (length s.now ≤ size_limit) × (Ok end ≡ step_of (read_ty 24 s.now at)) }
    ensures { HeadTested s.now false at end result }
{
    let Form::OfType(t) = bundle::form_of(s[at]) else {
        return None;
    };
    match t {
        TypeForm::Primitive => Some(end),
        TypeForm::TypeRef => Some(end),
        TypeForm::Struct => Some(at),
        TypeForm::Union => Some(at),
        TypeForm::Enum => enum_head_test(s, at, end),
        TypeForm::Array => array_head_test(s, at, end),
        TypeForm::SizeUnion => None,
    }
}

// The same in either test.
fn head_test(s: &[u8], at: usize, end: usize, test: TestOf) -> Option<usize>
    requires { (length s.now ≤ size_limit) × (Ok end ≡ step_of (read_ty 24 s.now at)) }
    ensures { HeadTested s.now (is_jagged test) at end result }
{
    match test {
        TestOf::Size => size_head_test(s, at, end),
        TestOf::Jagged => Some(at),
    }
}

// The named-type test of definition `i`. `left` definitions may still be gone through, one inside another. `kept` has the answers
// that are known.
#[cycle(tests)]
fn named_type_test(
    definitions: &Definitions<'_>,
    kept: &mut [Option<bool>; bundle::DEFINITIONS],
    test: TestOf,
    i: usize,
    left: usize,
) -> bool
    requires { (i < definitions.now.count) × (length definitions.now.bytes.now ≤ size_limit) × Ready definitions.now.bytes.now (is_jagged test) left (i ∷ []) kept.old }
    ensures { (result ≡ answer_at (is_jagged test) definitions.now.bytes.now i) × Kept definitions.now.bytes.now (is_jagged test) kept.new }
{
    let Definitions { bytes, places, .. } = *definitions;
    if let Some(holds) = kept[i] {
        return holds;
    }
    let end = places[i + 1] as usize - 3;
    let Some(at) = head_test(bytes, places[i] as usize, end, test) else {
        kept[i] = Some(true);
        return true;
    };
    let holds = inline_type_test(definitions, kept, test, at, end, left - 1);
    kept[i] = Some(holds);
    holds
}

// The inline-type test of the records from `at` to `end`. lookup::next_led passes over what a test ends at: one function for both would
// give `Option<Result<(usize, usize), ()>>`, with `Err` for such a record, and each caller would match on that.
#[cycle(tests)]
fn inline_type_test(
    definitions: &Definitions<'_>,
    kept: &mut [Option<bool>; bundle::DEFINITIONS],
    test: TestOf,
    at: usize,
    end: usize,
    left: usize,
) -> bool
    requires { (length definitions.now.bytes.now ≤ size_limit) × ToTest definitions.now.bytes.now (is_jagged test) left at end kept.old }
    ensures { ((ps : List Part) → Run definitions.now.bytes.now end at ps → result ≡ some_counts (is_jagged test) definitions.now.bytes.now ps) × Kept definitions.now.bytes.now (is_jagged test) kept.new }
{
    let bytes = definitions.bytes;
    let walk = walk_of(test);
    let mut from = at;
    while let Some(next) = scan::next_stop(bytes, from, end, walk) {
        if !scan::leads(bytes, next) {
            return true;
        }
        from = next + 3;
        if let Some(i) = lookup::definition_of(definitions, bundle::u16_at(bytes, next + 1)) {
            if named_type_test(definitions, kept, test, i, left) {
                return true;
            }
        }
    }
    false
}

// The inline-type test of the type that was read at `at`.
fn type_test(
    definitions: &Definitions<'_>,
    kept: &mut [Option<bool>; bundle::DEFINITIONS],
    test: TestOf,
    at: usize,
    depth: usize,
) -> bool
    requires { Reads (read_ty depth definitions.now.bytes.now at) × Acyclic definitions.now.bytes.now × Kept definitions.now.bytes.now (is_jagged test) kept.old }
    ensures { (result ≡ inline_holds (is_jagged test) definitions.now.bytes.now (type_at depth definitions.now.bytes.now at)) × Kept definitions.now.bytes.now (is_jagged test) kept.new }
{
    match bundle::type_at(definitions.bytes, at, depth) {
        Ok(end) => inline_type_test(definitions, kept, test, at, end, definitions.count),
        Err(_) => false,
    }
}

// The answers of both tests for the definitions of a bundle, as far as they are known. That a test leaves the definitions as they are only
// a clause can say, here and in checks and cycles. The tests have the names of the original: each is one call, of the definition or of the
// type.
#[derive(Drop)]
pub struct TestAnswers<'a> {
    pub definitions: Definitions<'a>,
    sizes: [Option<bool>; bundle::DEFINITIONS],
    jagged: [Option<bool>; bundle::DEFINITIONS],
    pub ghost acyclic: { Acyclic definitions.bytes.now },
    ghost sizes_kept: { Kept definitions.bytes.now false sizes },
    ghost jagged_kept: { Kept definitions.bytes.now true jagged },
}

impl<'a> TestAnswers<'a> {
    // No answer is known yet.
    pub fn new(definitions: &Definitions<'a>) -> TestAnswers<'a>
        requires { Acyclic definitions.now.bytes.now }
        ensures { result.definitions ≡ definitions.now }
    {
        TestAnswers {
            definitions: *definitions,
            sizes: [None; bundle::DEFINITIONS],
            jagged: [None; bundle::DEFINITIONS],
        }
    }

    // Whether the size of definition `i` depends on field references.
    pub fn type_size_depends_on_field_refs(&mut self, i: usize) -> bool
        requires { i < self.old.definitions.count }
        ensures { (result ≡ definition_size_depends (bundle_of self.old.definitions.bytes.now) i) × (self.new.definitions ≡ self.old.definitions) }
    {
        let count = self.definitions.count;
        named_type_test(&self.definitions, &mut self.sizes, TestOf::Size, i, count)
    }

    // Whether the size of the type that was read at `at`, written inline, depends on field references.
    pub fn type_size_depends_on_field_refs_recursive(&mut self, at: usize, depth: usize) -> bool
        requires { Reads (read_ty depth self.old.definitions.bytes.now at) }
        ensures { (result ≡ inline_size_depends (bundle_of self.old.definitions.bytes.now) (type_at depth self.old.definitions.bytes.now at)) × (self.new.definitions ≡ self.old.definitions) }
    {
        type_test(&self.definitions, &mut self.sizes, TestOf::Size, at, depth)
    }

    // Whether a jagged array is in the type that was read at `at` or in what it leads to.
    pub fn type_contains_jagged_array(&mut self, at: usize, depth: usize) -> bool
        requires { Reads (read_ty depth self.old.definitions.bytes.now at) }
        ensures { (result ≡ contains_jagged_array (bundle_of self.old.definitions.bytes.now) (type_at depth self.old.definitions.bytes.now at)) × (self.new.definitions ≡ self.old.definitions) }
    {
        type_test(
            &self.definitions,
            &mut self.jagged,
            TestOf::Jagged,
            at,
            depth,
        )
    }
}
