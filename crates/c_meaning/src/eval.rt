ghost use Rattle.std.specs.Prelude.{◌≡◌, ◌≢◌, ℤ, pos, FitsSigned, IfSome, Ok};
ghost use Rattle.std.specs.Int.{w64, CanDivide};
ghost use Rattle.std.specs.Int.RustNames.{int_div, int_rem};
ghost use Rattle.std.specs.Option.{SomeIff};
ghost use Rattle.c_meaning.specs.Plain.{plain_term};
ghost use Rattle.c_meaning.specs.Values.{eval, number, local_of, negated, opposite, truth_of, on_numbers, on_values, same_value, quotient, remainder};

use crate::term::Term;
use c_syntax::COp;
use pl_resource::{Fault, Value};

/// The value of an expression, or its first fault from the left.
pub(crate) fn evaluate(e: &Term, env: &[Value]) -> Result<Value, Fault>
    ensures { result ≡ eval env.now (plain_term e.now) }
{
    match leaf(e, env) {
        Some(v) => Ok(v),
        None => calculate_all(e, env),
    }
}

// The value of a number or a local that has one: most operands are one of these, and need no call.
fn leaf(e: &Term, env: &[Value]) -> Option<Value>
    ensures { IfSome result (λ v. Ok v ≡ eval env.now (plain_term e.now)) }
{
    match e {
        Term::Int(n) => Some(Value::Int(*n)),
        Term::Var(x) => match local(env, *x) {
            Ok(v) => Some(v),
            Err(_) => None,
        },
        _ => None,
    }
}

// The value of an expression of any form.
fn calculate_all(e: &Term, env: &[Value]) -> Result<Value, Fault>
    ensures { result ≡ eval env.now (plain_term e.now) }
{
    match e {
        Term::Int(n) => Ok(Value::Int(*n)),
        Term::Truth(b) => Ok(Value::Truth(*b)),
        Term::Null => Ok(Value::Null),
        Term::Var(x) => local(env, *x),
        Term::Neg(inner) => negate(calculate_all(inner, env)?),
        Term::Not(inner) => invert(calculate_all(inner, env)?),
        Term::Bin(COp::And, left, right) => match calculate_all(left, env)? {
            Value::Truth(true) => as_truth(calculate_all(right, env)?),
            Value::Truth(false) => Ok(Value::Truth(false)),
            _ => Err(Fault::Kind),
        },
        Term::Bin(COp::Or, left, right) => match calculate_all(left, env)? {
            Value::Truth(true) => Ok(Value::Truth(true)),
            Value::Truth(false) => as_truth(calculate_all(right, env)?),
            _ => Err(Fault::Kind),
        },
        Term::Bin(op, left, right) => match (leaf(left, env), leaf(right, env)) {
            (Some(a), Some(b)) => combine(*op, a, b),
            _ => {
                let a = calculate_all(left, env)?;
                let b = calculate_all(right, env)?;
                combine(*op, a, b)
            }
        },
    }
}

/// The value of a local.
pub(crate) fn local(env: &[Value], x: u32) -> Result<Value, Fault>
    ensures { result ≡ local_of env.now x }
{
    match env.get(x as usize) {
        Some(v) => Ok(*v),
        None => Err(Fault::Kind),
    }
}

fn negate(value: Value) -> Result<Value, Fault>
    ensures { result ≡ negated value }
{
    match value {
        Value::Int(n) => fitting(n.checked_neg()),
        _ => Err(Fault::Kind),
    }
}

fn invert(value: Value) -> Result<Value, Fault>
    ensures { result ≡ opposite value }
{
    match value {
        Value::Truth(b) => Ok(Value::Truth(!b)),
        _ => Err(Fault::Kind),
    }
}

fn as_truth(value: Value) -> Result<Value, Fault>
    ensures { result ≡ truth_of value }
{
    match value {
        Value::Truth(b) => Ok(Value::Truth(b)),
        _ => Err(Fault::Kind),
    }
}

fn combine(op: COp, left: Value, right: Value) -> Result<Value, Fault>
    ensures { result ≡ on_values op left right }
{
    match op {
        COp::Eq => Ok(Value::Truth(compare(left, right)?)),
        COp::Ne => Ok(Value::Truth(!compare(left, right)?)),
        _ => match (left, right) {
            (Value::Int(a), Value::Int(b)) => calculate(op, a, b),
            _ => Err(Fault::Kind),
        },
    }
}

fn compare(left: Value, right: Value) -> Result<bool, Fault>
    ensures { result ≡ same_value left right }
{
    match (left, right) {
        (Value::Int(a), Value::Int(b)) => Ok(a == b),
        (Value::Truth(a), Value::Truth(b)) => Ok(if a { b } else { !b }),
        (Value::Null, Value::Null) => Ok(true),
        (Value::Null, Value::Block(_)) | (Value::Block(_), Value::Null) => Ok(false),
        (Value::Block(a), Value::Block(b)) => Ok(a == b),
        (Value::Lock(a), Value::Lock(b)) => Ok(a == b),
        _ => Err(Fault::Kind),
    }
}

fn calculate(op: COp, a: i64, b: i64) -> Result<Value, Fault>
    ensures { result ≡ on_numbers op a b }
{
    match op {
        COp::Add => fitting(a.checked_add(b)),
        COp::Sub => fitting(a.checked_sub(b)),
        COp::Mul => fitting(a.checked_mul(b)),
        COp::Div => divide(a, b),
        COp::Rem => remain(a, b),
        COp::Lt => Ok(Value::Truth(a < b)),
        COp::Le => Ok(Value::Truth(a <= b)),
        COp::Gt => Ok(Value::Truth(b < a)),
        COp::Ge => Ok(Value::Truth(b <= a)),
        COp::Eq => Ok(Value::Truth(a == b)),
        COp::Ne => Ok(Value::Truth(a != b)),
        COp::And | COp::Or => Err(Fault::Kind),
    }
}

fn divide(a: i64, b: i64) -> Result<Value, Fault>
    ensures { result ≡ quotient a b }
{
    if b == 0 {
        return Err(Fault::ZeroDivisor);
    }
    fitting(quotient_of(a, b))
}

fn remain(a: i64, b: i64) -> Result<Value, Fault>
    ensures { result ≡ remainder a b }
{
    if b == 0 {
        return Err(Fault::ZeroDivisor);
    }
    match remainder_of(a, b) {
        Some(n) => Ok(Value::Int(n)),
        None => Err(Fault::Overflow),
    }
}

fn quotient_of(a: i64, b: i64) -> Option<i64>
    requires { b ≢ pos 0 }
    ensures { SomeIff result (FitsSigned w64 (int_div a b)) (int_div a b) }
{
    a.checked_div(b)
}

fn remainder_of(a: i64, b: i64) -> Option<i64>
    requires { b ≢ pos 0 }
    ensures { SomeIff result (FitsSigned w64 (int_div a b)) (int_rem a b) }
{
    a.checked_rem(b)
}

// The number, or the fault of one that does not fit.
fn fitting(sum: Option<i64>) -> Result<Value, Fault>
    ensures { (z : ℤ) → SomeIff sum (FitsSigned w64 z) z → result ≡ number z }
{
    match sum {
        Some(n) => Ok(Value::Int(n)),
        None => Err(Fault::Overflow),
    }
}
