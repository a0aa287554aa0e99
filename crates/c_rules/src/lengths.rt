//! How long the pieces of a text are.

ghost use Rattle.std.specs.Prelude.{◌≡◌, ◌∷◌, [], codes, ◌+◌, ◌*◌, ◌<◌, ◌^◌, length, decimal};
ghost use Rattle.pl_base.specs.Mangling.{mangled_char};
ghost use Rattle.c_syntax.specs.Text.{mangled_name, constant, literal_text, operator, type_text, function_name, indent, line};
ghost use Rattle.c_forms.specs.Text.{local_text, number_text, slot_name};

use c_forms::{Local, Number};
use c_syntax::{COp, CType};
use itoa::Buffer;
use pl_base::Name;

/// The length of a number in decimal.
pub(crate) fn decimal_len(n: u64) -> usize
    ensures { result ≡ length (decimal n) }
{
    let mut buffer = Buffer::new();
    buffer.format(n).len()
}

/// The length of a character of a name as C text has it.
fn char_len(c: char) -> usize
    ensures { result ≡ length (mangled_char c) }
{
    if c.is_ascii_alphanumeric() {
        1
    } else if c == '_' {
        2
    } else {
        8
    }
}

/// The length of a name as C text has it.
pub(crate) fn mangled_len(name: &Name) -> usize
    requires { length (mangled_name name.now) < 2 ^ 32 }
    ensures { result ≡ length (mangled_name name.now) }
{
    let mut len: usize = 0;
    for c in name.text().chars() {
        len = char_len(c).saturating_add(len);
    }
    len
}

fn number_len(n: &Number) -> usize
    ensures { result ≡ length (number_text n.now) }
{
    match n {
        Number::Small(n) => decimal_len(u64::from(*n)),
        Number::Long(digits) => digits.as_slice().len(),
    }
}

/// Where the member for an argument ends that begins at `at`.
pub(crate) fn number_end(at: u32, n: &Number) -> u32
    requires { at + length (slot_name n.now) < 2 ^ 32 }
    ensures { result ≡ at + length (slot_name n.now) }
{
    at + 2 + number_len(n) as u32
}

/// Where a name ends that begins at `at` and has a prefix of that length.
pub(crate) fn name_end(at: u32, prefix: u32, name: &Name) -> u32
    requires { at + prefix + length (mangled_name name.now) < 2 ^ 32 }
    ensures { result ≡ at + prefix + length (mangled_name name.now) }
{
    at + prefix + mangled_len(name) as u32
}

/// Where a local ends that begins at `at`.
pub(crate) fn local_end(at: u32, x: &Local) -> u32
    requires { at + length (local_text x.now) < 2 ^ 32 }
    ensures { result ≡ at + length (local_text x.now) }
{
    name_end(at, 2, &x.name) + 1 + number_len(&x.number) as u32
}

/// Where a constant ends that begins at `at`.
fn constant_end(at: u32, n: u64) -> u32
    requires { at + length (constant n) < 2 ^ 32 }
    ensures { result ≡ at + length (constant n) }
{
    at + 8 + decimal_len(n) as u32 + 1
}

/// Where a literal ends that begins at `at`.
pub(crate) fn literal_end(at: u32, n: i64) -> u32
    requires { at + length (literal_text n) < 2 ^ 32 }
    ensures { result ≡ at + length (literal_text n) }
{
    if n >= 0 {
        return constant_end(at, n.unsigned_abs());
    }
    if n == i64::MIN {
        return constant_end(constant_end(at + 2, i64::MAX.unsigned_abs()) + 3, 1) + 1;
    }
    constant_end(at + 2, n.unsigned_abs()) + 1
}

/// The length of an operator with its blanks.
pub(crate) fn operator_len(op: COp) -> u32
    ensures { result ≡ length (operator op) }
{
    match op {
        COp::Add | COp::Sub | COp::Mul | COp::Div | COp::Rem | COp::Lt | COp::Gt => 3,
        COp::Le | COp::Ge | COp::Eq | COp::Ne | COp::And | COp::Or => 4,
    }
}

/// Where a type in front of a name ends that begins at `at`.
pub(crate) fn type_end(at: u32, kind: &CType) -> u32
    requires { at + length (type_text kind.now) < 2 ^ 32 }
    ensures { result ≡ at + length (type_text kind.now) }
{
    match kind {
        CType::Void => at + 5,
        CType::I64 => at + 8,
        CType::Bool => at + 5,
        CType::PtrI64 => at + 9,
        CType::PtrBool => at + 6,
        CType::PtrStruct(name) => name_end(at, 9, name) + 2,
        CType::PtrAtomic => at + 10,
        CType::PtrLock => at + 15,
    }
}

/// Where the blanks of a line end that begins at `at`.
#[tactic(auto, using(crate::proofs::Drops::indent_length))]
pub(crate) fn indented(at: u32, level: u32) -> u32
    requires { at + length (indent level) < 2 ^ 32 }
    ensures { result ≡ at + length (indent level) }
{
    at + 2 * level
}

/// Where the line with the brace that opens a `par` ends.
pub(crate) fn brace_begin(at: u32, level: u32) -> u32
    requires { at + length (line level (codes "{" ∷ [])) < 2 ^ 32 }
    ensures { result ≡ at + length (line level (codes "{" ∷ [])) }
{
    indented(at, level) + 2
}

/// Where the line with a closing brace ends.
pub(crate) fn brace_end(at: u32, level: u32) -> u32
    requires { at + length (line level (codes "}" ∷ [])) < 2 ^ 32 }
    ensures { result ≡ at + length (line level (codes "}" ∷ [])) }
{
    indented(at, level) + 2
}

/// Where the line between the arms of an `if` ends.
pub(crate) fn else_begin(at: u32, level: u32) -> u32
    requires { at + length (line level (codes "} else {" ∷ [])) < 2 ^ 32 }
    ensures { result ≡ at + length (line level (codes "} else {" ∷ [])) }
{
    indented(at, level) + 9
}

/// Where the first line of a loop ends.
pub(crate) fn while_begin(at: u32, level: u32) -> u32
    requires { at + length (line level (codes "while (1) {" ∷ [])) < 2 ^ 32 }
    ensures { result ≡ at + length (line level (codes "while (1) {" ∷ [])) }
{
    indented(at, level) + 12
}
