//! Lines, which are made of pieces.

ghost use Rattle.std.specs.Prelude.{map};
ghost use Rattle.c_syntax.specs.Text.{line, statement, joined, type_text, maker};
ghost use Rattle.c_syntax.specs.declared.kind.CType.TheVariants as kind;
ghost use Rattle.c_text.specs.Pieces.{piece_text};
ghost use Rattle.c_text.specs.Adds.{Adds};

use crate::exprs::{put_call, put_cell, put_expr, put_field};
use crate::pieces::{
    put, put_argument_name, put_arguments_name, put_function_name, put_indent, put_local,
    put_member_name, put_starter_name, put_struct_name, put_type,
};
use c_syntax::{CCell, CExpr, CType, Local};
use pl_base::{Memory, Name};

/// A piece of a line.
#[derive(Clone, Copy)]
pub(crate) enum Piece<'a> {
    Text(&'a str),
    /// A type in front of a name.
    Type(&'a CType),
    Local(&'a Local),
    Expr(&'a CExpr),
    Cell(&'a CCell),
    /// A call of a function of the program.
    Call(&'a Name, &'a [CExpr]),
    Function(&'a Name),
    Struct(&'a Name),
    Member(&'a Name),
    /// A pointer to the structure, in front of a name.
    StructPointer(&'a Name),
    /// The member of the structure to which a local points.
    Field(&'a Local, &'a Name),
    /// What makes one cell for a pointer of that type.
    Maker(&'a CType),
    /// The structure of the arguments of a thread's first call.
    Arguments(&'a Name),
    /// Its member for an argument, counted from 1.
    Argument(u64),
    /// What starts a thread whose first call is of that function.
    Starter(&'a Name),
}

fn put_maker(out: &mut Vec<u8>, kind: &CType) -> Result<(), Memory>
    ensures { Adds result out.old out.new (maker kind.now) }
{
    match kind {
        CType::PtrBool => put(out, b"p_new_bool("),
        _ => put(out, b"p_new_i64("),
    }
}

fn put_struct_pointer(out: &mut Vec<u8>, name: &Name) -> Result<(), Memory>
    ensures { Adds result out.old out.new (type_text (kind.PtrStruct name.now)) }
{
    put_struct_name(out, name)?;
    put(out, b" *")
}

fn put_piece(out: &mut Vec<u8>, piece: &Piece) -> Result<(), Memory>
    ensures { Adds result out.old out.new (piece_text piece.now) }
{
    match *piece {
        Piece::Text(text) => put(out, text.as_bytes()),
        Piece::Type(kind) => put_type(out, kind),
        Piece::Local(x) => put_local(out, x),
        Piece::Expr(e) => put_expr(out, e),
        Piece::Cell(cell) => put_cell(out, cell),
        Piece::Call(f, args) => put_call(out, f, args),
        Piece::Function(name) => put_function_name(out, name),
        Piece::Member(name) => put_member_name(out, name),
        Piece::Struct(name) => put_struct_name(out, name),
        Piece::StructPointer(name) => put_struct_pointer(out, name),
        Piece::Field(x, member) => put_field(out, x, member),
        Piece::Maker(kind) => put_maker(out, kind),
        Piece::Arguments(f) => put_arguments_name(out, f),
        Piece::Argument(k) => put_argument_name(out, k),
        Piece::Starter(f) => put_starter_name(out, f),
    }
}

/// Adds pieces, one behind the other, and then the last one.
pub(crate) fn put_pieces(out: &mut Vec<u8>, pieces: &[Piece], last: &str) -> Result<(), Memory>
    ensures { Adds result out.old out.new (joined (map piece_text pieces.now) last.now) }
{
    for piece in pieces {
        put_piece(out, piece)?;
    }
    put(out, last.as_bytes())
}

/// Adds a line.
pub(crate) fn put_line(out: &mut Vec<u8>, level: u32, pieces: &[Piece]) -> Result<(), Memory>
    ensures { Adds result out.old out.new (line level (map piece_text pieces.now)) }
{
    put_indent(out, level)?;
    put_pieces(out, pieces, "\n")
}

/// Adds a line that ends with a semicolon.
pub(crate) fn put_statement(out: &mut Vec<u8>, level: u32, pieces: &[Piece]) -> Result<(), Memory>
    ensures { Adds result out.old out.new (statement level (map piece_text pieces.now)) }
{
    put_indent(out, level)?;
    put_pieces(out, pieces, ";\n")
}
