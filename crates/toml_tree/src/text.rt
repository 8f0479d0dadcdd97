//! The text of a tree: its parts in order.
ghost use Rattle.std.specs.Prelude.{◌≡◌, ◌++◌, OnOk, string_bytes};
ghost use Rattle.toml_tree.specs.Lines.{line};
ghost use Rattle.toml_tree.specs.Spells.{joined, blank_parts, dotted_parts, key_parts, equals_parts, assign_parts, value_parts, keyval_parts, header_parts, array_header_parts, expr_parts, line_parts, IsValue, IsKeyVal, IsExpr};
ghost use Rattle.toml_tree.specs.View.{piece, blank, dotted, key, assign, value, keyval, header, expr};

use crate::document::Doc;
use crate::line::Line;
use crate::piece::Blank;
use crate::tree::{Assign, Dotted, Expr, Header, Key, KeyVal, Value};
use std::alloc::{AllocError, Global};

/// Adds whitespace, and the comment behind it if there is one.
fn push_blank(out: &mut String, b: &Blank<'_>) -> Result<(), AllocError>
    ensures { OnOk result (string_bytes out.new ≡ string_bytes out.old ++ joined (blank_parts (blank b.now))) }
{
    out.push_str(b.ws.text)?;
    if let Some(comment) = b.comment {
        out.push_str(comment.text)?;
    }
    Ok(())
}

/// Adds a dot between whitespace, and the key part behind it.
fn push_dotted(out: &mut String, d: &Dotted<'_>) -> Result<(), AllocError>
    ensures { OnOk result (string_bytes out.new ≡ string_bytes out.old ++ joined (dotted_parts (dotted d.now))) }
{
    out.push_str(d.before_dot.text)?;
    out.push_str(".")?;
    out.push_str(d.after_dot.text)?;
    out.push_str(d.part.text)?;
    Ok(())
}

/// Adds the text of a key.
fn push_key(out: &mut String, k: &Key<'_>) -> Result<(), AllocError>
    ensures { OnOk result (string_bytes out.new ≡ string_bytes out.old ++ joined (key_parts (key k.now))) }
{
    out.push_str(k.first.text)?;
    for d in &k.rest {
        push_dotted(out, d)?;
    }
    Ok(())
}

/// Adds `=` between whitespace.
fn push_equals(out: &mut String, a: &Assign<'_>) -> Result<(), AllocError>
    ensures { OnOk result (string_bytes out.new ≡ string_bytes out.old ++ joined (equals_parts (piece a.now.before_equals) (piece a.now.after_equals))) }
{
    out.push_str(a.before_equals.text)?;
    out.push_str("=")?;
    out.push_str(a.after_equals.text)?;
    Ok(())
}

/// Adds a key, and `=` between whitespace.
fn push_assign(out: &mut String, a: &Assign<'_>) -> Result<(), AllocError>
    ensures { OnOk result (string_bytes out.new ≡ string_bytes out.old ++ joined (assign_parts (assign a.now))) }
{
    push_key(out, &a.key)?;
    push_equals(out, a)?;
    Ok(())
}

/// Adds the text of a value: an array's and an inline table's is that of its piece.
fn push_value(out: &mut String, v: &Value<'_>) -> Result<(), AllocError>
    requires { ∥ IsValue (value v.now) ∥₁ }
    ensures { OnOk result (string_bytes out.new ≡ string_bytes out.old ++ joined (value_parts (value v.now))) }
{
    let piece = match v {
        Value::Scalar(_, scalar) => *scalar,
        Value::Array(array) => array.whole,
        Value::Inline(table) => table.whole,
    };
    out.push_str(piece.text)?;
    Ok(())
}

/// Adds the text of a key/value pair.
fn push_keyval(out: &mut String, k: &KeyVal<'_>) -> Result<(), AllocError>
    requires { ∥ IsKeyVal (keyval k.now) ∥₁ }
    ensures { OnOk result (string_bytes out.new ≡ string_bytes out.old ++ joined (keyval_parts (keyval k.now))) }
{
    push_assign(out, &k.assign)?;
    push_value(out, &k.value)?;
    Ok(())
}

/// Adds the header of a table.
fn push_header(out: &mut String, h: &Header<'_>) -> Result<(), AllocError>
    ensures { OnOk result (string_bytes out.new ≡ string_bytes out.old ++ joined (header_parts (header h.now))) }
{
    out.push_str("[")?;
    out.push_str(h.before.text)?;
    push_key(out, &h.key)?;
    out.push_str(h.after.text)?;
    out.push_str("]")?;
    Ok(())
}

/// Adds the header of an array of tables.
fn push_array_header(out: &mut String, h: &Header<'_>) -> Result<(), AllocError>
    ensures { OnOk result (string_bytes out.new ≡ string_bytes out.old ++ joined (array_header_parts (header h.now))) }
{
    out.push_str("[")?;
    push_header(out, h)?;
    out.push_str("]")?;
    Ok(())
}

/// Adds what stands on a line.
fn push_expr(out: &mut String, e: &Expr<'_>) -> Result<(), AllocError>
    requires { ∥ IsExpr (expr e.now) ∥₁ }
    ensures { OnOk result (string_bytes out.new ≡ string_bytes out.old ++ joined (expr_parts (expr e.now))) }
{
    match e {
        Expr::Blank(b) => push_blank(out, b),
        Expr::KeyVal { ws, keyval, tail } => {
            out.push_str(ws.text)?;
            push_keyval(out, keyval)?;
            push_blank(out, tail)?;
            Ok(())
        }
        Expr::Std { ws, header, tail } => {
            out.push_str(ws.text)?;
            push_header(out, header)?;
            push_blank(out, tail)?;
            Ok(())
        }
        Expr::Array { ws, header, tail } => {
            out.push_str(ws.text)?;
            push_array_header(out, header)?;
            push_blank(out, tail)?;
            Ok(())
        }
    }
}

/// Adds a line with its newline.
fn push_line(out: &mut String, l: &Line<'_>) -> Result<(), AllocError>
    ensures { OnOk result (string_bytes out.new ≡ string_bytes out.old ++ joined (line_parts (line l.now))) }
{
    push_expr(out, &l.expr)?;
    out.push_str(l.newline.text)?;
    Ok(())
}

impl Doc<'_> {
    ghost use Rattle.std.specs.Prelude.{ℕ, List, IfOk};
    ghost use Rattle.toml_tree.specs.Document.{document};
    ghost use Rattle.toml_tree.specs.Spells.{doc_parts, Spells};

    /// The text of the tree: of a parsed document the text that was read. It fails only for want of memory.
    pub fn text(&self, alloc: Global) -> Result<String, AllocError>
        ensures parts { IfOk result (λ out. string_bytes out ≡ joined (doc_parts (document self.now))) }
        ensures read { IfOk result (λ out. (text : List ℕ) → Spells (document self.now) text → string_bytes out ≡ text) }
    {
        let mut out = String::new(alloc);
        out.push_str(self.mark.text)?;
        for l in &self.lines {
            push_line(&mut out, l)?;
        }
        Ok(out)
    }
}
