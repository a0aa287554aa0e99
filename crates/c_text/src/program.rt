//! Structures, functions and whole programs.

ghost use Rattle.std.specs.Prelude.{◌++◌, [], ◌∷◌, codes, flat_map};
ghost use Rattle.c_syntax.specs.Forms.{IsFunForm};
ghost use Rattle.c_syntax.specs.Plain.{plain_fun};
ghost use Rattle.c_syntax.specs.Text as text;
ghost use Rattle.c_text.specs.Adds.{Adds};

use crate::lines::{Piece, put_line, put_pieces, put_statement};
use crate::pieces::{put, put_argument_name, put_local, put_type};
use crate::stmts::put_stmts;
use c_syntax::{CFun, CMember, CParam, CStruct};
use pl_base::{Memory, Name};

fn put_members(out: &mut Vec<u8>, members: &[CMember]) -> Result<(), Memory>
    ensures { Adds result out.old out.new (
        flat_map (λ m. text.statement 1 (text.type_text m.kind ∷ text.member_name m.name ∷ [])) members.now) }
{
    for member in members {
        let pieces = [Piece::Type(&member.kind), Piece::Member(&member.name)];
        put_statement(out, 1, &pieces)?;
    }
    Ok(())
}

pub(crate) fn put_struct(out: &mut Vec<u8>, structure: &CStruct) -> Result<(), Memory>
    ensures { Adds result out.old out.new (text.struct_text structure.now) }
{
    let head = [Piece::Struct(&structure.name), Piece::Text(" {")];
    put_line(out, 0, &head)?;
    put_members(out, structure.members.as_slice())?;
    put_line(out, 0, &[Piece::Text("};")])
}

fn put_param(out: &mut Vec<u8>, param: &CParam) -> Result<(), Memory>
    ensures { Adds result out.old out.new (text.type_text param.now.kind ++ text.local_text param.now.local) }
{
    put_type(out, &param.kind)?;
    put_local(out, &param.local)
}

fn put_params(out: &mut Vec<u8>, params: &[CParam]) -> Result<(), Memory>
    ensures { Adds result out.old out.new (text.params_text params.now) }
{
    let [first, others @ ..] = params else {
        return put(out, b"void");
    };
    put_param(out, first)?;
    for param in others {
        put(out, b", ")?;
        put_param(out, param)?;
    }
    Ok(())
}

/// The result, the name and the parameters of a function.
fn put_head(out: &mut Vec<u8>, function: &CFun) -> Result<(), Memory>
    ensures { Adds result out.old out.new (text.head_text (plain_fun function.now)) }
{
    put(out, b"static ")?;
    let start = [
        Piece::Type(&function.result),
        Piece::Function(&function.name),
    ];
    put_pieces(out, &start, "(")?;
    put_params(out, function.params.as_slice())?;
    put(out, b")")
}

pub(crate) fn put_prototype(out: &mut Vec<u8>, function: &CFun) -> Result<(), Memory>
    ensures { Adds result out.old out.new (text.prototype_text (plain_fun function.now)) }
{
    put_head(out, function)?;
    put(out, b";\n")
}

pub(crate) fn put_fun(out: &mut Vec<u8>, function: &CFun) -> Result<(), Memory>
    requires { IsFunForm (plain_fun function.now) }
    ensures { Adds result out.old out.new (text.fun_text (plain_fun function.now)) }
{
    put_head(out, function)?;
    put(out, b" {\n")?;
    put_stmts(out, 1, function.body.as_slice())?;
    put(out, b"}\n")
}

/// A member for each argument of a thread's first call.
fn put_argument_members(out: &mut Vec<u8>, params: &[CParam]) -> Result<(), Memory>
    ensures { Adds result out.old out.new (text.argument_members 1 params.now) }
{
    for (i, param) in params.iter().enumerate() {
        let pieces = [Piece::Type(&param.kind), Piece::Argument(i as u64 + 1)];
        put_statement(out, 1, &pieces)?;
    }
    Ok(())
}

fn put_arguments_struct(out: &mut Vec<u8>, function: &CFun) -> Result<(), Memory>
    ensures { Adds result out.old out.new (text.arguments_struct (plain_fun function.now)) }
{
    let head = [Piece::Arguments(&function.name), Piece::Text(" {")];
    put_line(out, 0, &head)?;
    put_statement(out, 1, &[Piece::Text("char "), Piece::Argument(0)])?;
    put_argument_members(out, function.params.as_slice())?;
    put_line(out, 0, &[Piece::Text("};")])
}

/// The arguments that were handed over, with commas between them.
fn put_handed_arguments(out: &mut Vec<u8>, params: &[CParam]) -> Result<(), Memory>
    ensures { Adds result out.old out.new (text.commas (text.handed_arguments 1 params.now)) }
{
    let [_, others @ ..] = params else {
        return Ok(());
    };
    put(out, b"c.")?;
    put_argument_name(out, 1)?;
    for (i, _) in others.iter().enumerate() {
        put(out, b", c.")?;
        put_argument_name(out, i as u64 + 2)?;
    }
    Ok(())
}

/// The lines of a starter up to its call.
fn put_arguments_taken(out: &mut Vec<u8>, name: &Name) -> Result<(), Memory>
    ensures { Adds result out.old out.new (text.joined (
        text.line 0 (codes "static int " ∷ text.starter_name name.now ∷ codes "(void *p) {" ∷ []) ∷
        text.statement 1 (text.arguments_name name.now ∷ codes " *q = p" ∷ []) ∷
        text.statement 1 (text.arguments_name name.now ∷ codes " c = *q" ∷ []) ∷ [])
        (text.statement 1 (codes "free(q)" ∷ []))) }
{
    let head = [
        Piece::Text("static int "),
        Piece::Starter(name),
        Piece::Text("(void *p) {"),
    ];
    put_line(out, 0, &head)?;
    put_statement(out, 1, &[Piece::Arguments(name), Piece::Text(" *q = p")])?;
    put_statement(out, 1, &[Piece::Arguments(name), Piece::Text(" c = *q")])?;
    put_statement(out, 1, &[Piece::Text("free(q)")])
}

/// A starter's call.
fn put_first_call(out: &mut Vec<u8>, function: &CFun) -> Result<(), Memory>
    ensures { Adds result out.old out.new (text.statement 1 (
        text.function_name function.now.name ∷ codes "(" ∷
        text.commas (text.handed_arguments 1 function.now.params) ∷ codes ")" ∷ [])) }
{
    put(out, b"  ")?;
    put_pieces(out, &[Piece::Function(&function.name)], "(")?;
    put_handed_arguments(out, function.params.as_slice())?;
    put(out, b");\n")
}

fn put_starter(out: &mut Vec<u8>, function: &CFun) -> Result<(), Memory>
    ensures { Adds result out.old out.new (text.starter (plain_fun function.now)) }
{
    put_arguments_taken(out, &function.name)?;
    put_first_call(out, function)?;
    put(out, b"  return 0;\n}\n")
}

/// The structure and the starter of threads whose first call is of that function.
pub(crate) fn put_thread(out: &mut Vec<u8>, function: &CFun) -> Result<(), Memory>
    ensures { Adds result out.old out.new (text.starter_text (plain_fun function.now)) }
{
    put_arguments_struct(out, function)?;
    put_starter(out, function)
}
