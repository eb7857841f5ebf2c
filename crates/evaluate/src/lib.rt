// The value of an expression of a bundle, and the counts of arrays.
#![tactic(auto)]

ghost use Rattle.std.specs.Prelude.{◌≡◌, ◌+◌, ◌≤◌, length, get_or};
ghost use Rattle.meaning.specs.Kinds.{OfExpr, Binary, form_of};
ghost use Rattle.meaning.specs.Reader.{little};
ghost use Rattle.meaning.specs.ReadExpr.{read_expr};
ghost use Rattle.bundle.specs.View.{Reads};
ghost use Rattle.bundle.specs.Expressions.{expr_at};
ghost use Rattle.fixed_meaning.specs.Value.{value_of};
ghost use Rattle.fixed_meaning.specs.Fixed.{count_of};
ghost use Rattle.extents.specs.Meant.{count_meant};
ghost use Rattle.values.specs.Meant.{value_meant};
ghost use Rattle.evaluate.specs.Evaluates.{Evaluates};

use bundle::{ExprForm, Form};
use refusal::Refusal;

// The number in the `w` bytes at `at`. A copy to eight bytes for `from_le_bytes` takes twice the time for a number of one byte.
pub fn number_at(s: &[u8], at: usize, w: usize) -> u64
    requires { (at + w ≤ length s.now) × (w ≤ 8) }
    ensures { result ≡ little s.now at w }
{
    let mut value: u64 = 0;
    for i in 0..w {
        value = value * 256 + u64::from(s[at + (w - 1 - i)]);
    }
    value
}

// The value and the end of the expression that was read at `at`.
#[cycle(values)]
fn value_at(s: &[u8], at: usize, depth: usize) -> Result<(i64, usize), Refusal>
    requires { Reads (read_expr depth s.now at) }
    ensures { Evaluates depth s.now at result }
{
    let kind = s[at];
    let Form::OfExpr(form) = bundle::form_of(kind) else {
        return Err(Refusal::NotCovered);
    };
    match form {
        ExprForm::Literal(w) => {
            let width = usize::from(w);
            let value = values::literal_value(kind, number_at(s, at + 1, width))?;
            Ok((value, at + 1 + width))
        }
        ExprForm::Binary => binary_at(s, at, depth),
        _ => Err(Refusal::NotCovered),
    }
}

// The same for a binary expression: its kind is tested before its sides, and the left side is worked out first.
#[cycle(values)]
fn binary_at(s: &[u8], at: usize, depth: usize) -> Result<(i64, usize), Refusal>
    requires { Reads (read_expr depth s.now at) × (form_of (get_or s.now at 0) ≡ OfExpr Binary) }
    ensures { Evaluates depth s.now at result }
{
    let Some(operation) = values::operation_of(s[at]) else {
        return Err(Refusal::NotCovered);
    };
    let (l, next) = value_at(s, at + 1, depth - 1)?;
    let (r, end) = value_at(s, next, depth - 1)?;
    let value = values::apply(operation, l, r)?;
    Ok((value, end))
}

// The value of the expression that was read at `at`.
pub fn value_of(s: &[u8], at: usize, depth: usize) -> Result<i64, Refusal>
    requires { Reads (read_expr depth s.now at) }
    ensures { value_meant result ≡ value_of (expr_at depth s.now at) }
{
    let (value, _) = value_at(s, at, depth)?;
    Ok(value)
}

// The count of an array whose size was read at `at`.
pub fn count_of(s: &[u8], at: usize, depth: usize) -> Option<u64>
    requires { Reads (read_expr depth s.now at) }
    ensures { count_meant result ≡ count_of (expr_at depth s.now at) }
{
    let value = value_of(s, at, depth).ok()?;
    u64::try_from(value).ok()
}
