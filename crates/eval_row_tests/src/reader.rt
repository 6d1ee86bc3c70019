// Reads an expression, word by word.
use crate::names::{func_of, kind_of, mode_of};
use anyhow::{Context, Result, bail};
use hex::decode;
use plan_leaves::{Boxed, Items};
use plan_typed::{Expr, Overflow};
use std::alloc::Global;
use std::mem;
use sub_types::{ByteList, Kind, NoMemory, Ty, Value};

/// What is read so far.
#[derive(Drop)]
pub(crate) struct Reader<'a> {
    alloc: Global,
    /// Whether constants become columns, and what these hold.
    in_columns: bool,
    row: Vec<Value>,
    /// The arguments of the innermost call, and those before each call around it.
    items: Vec<Expr>,
    around: Vec<(&'a str, Vec<Expr>)>,
}

impl<'a> Reader<'a> {
    pub(crate) fn new(alloc: Global, in_columns: bool) -> Reader<'a> {
        Reader {
            alloc,
            in_columns,
            row: Vec::new(alloc),
            items: Vec::new(alloc),
            around: Vec::new(alloc),
        }
    }

    /// The expression that a text writes, and the row of its columns.
    pub(crate) fn read(mut self, text: &'a str) -> Result<(Expr, Vec<Value>)> {
        for word in text.split(' ') {
            self.take(word)?;
        }
        let expr = self.items.pop().context("no expression")?;
        Ok((expr, self.row))
    }

    /// The next word: a constant, or `(` with what is called, and behind either the ends of calls.
    fn take(&mut self, word: &'a str) -> Result<()> {
        let rest = word.trim_end_matches(')');
        match rest.strip_prefix('(') {
            Some(head) => self.open(head)?,
            None => self.constant(rest)?,
        }
        for _ in rest.len()..word.len() {
            self.close()?;
        }
        Ok(())
    }

    fn open(&mut self, head: &'a str) -> Result<()> {
        let before = mem::replace(&mut self.items, Vec::new(self.alloc));
        Ok(self.around.push((head, before))?)
    }

    fn close(&mut self) -> Result<()> {
        let (head, before) = self.around.pop().context("one `)` too many")?;
        let items = mem::replace(&mut self.items, before);
        let expr = expr_of(self.alloc, head, items)?;
        Ok(self.items.push(expr)?)
    }

    fn constant(&mut self, text: &str) -> Result<()> {
        let (value, kind) = constant_of(self.alloc, text)?;
        let ty = nullable(kind);
        if self.in_columns && !self.is_in_switch() {
            let index = u32::try_from(self.row.len())?;
            self.row.push(value)?;
            Ok(self.items.push(Expr::Column { index, ty })?)
        } else {
            Ok(self.items.push(Expr::Const { value, ty })?)
        }
    }

    /// Whether a switch is the innermost call: its literals stay constants.
    fn is_in_switch(&self) -> bool {
        match self.around.last() {
            Some((head, _)) => head.starts_with("switch"),
            None => false,
        }
    }
}

fn nullable(kind: Kind) -> Ty {
    Ty {
        kind,
        nullable: true,
    }
}

/// A constant and its kind: `KIND:VALUE` or `null:KIND`; of a text by its bytes `hex:BYTES`, and by a piece that is repeated
/// `repeat:COUNT:PIECE`.
pub(crate) fn constant_of(alloc: Global, text: &str) -> Result<(Value, Kind)> {
    let (name, rest) = text.split_once(':').context("no constant")?;
    match name {
        "null" => Ok((Value::Null, kind_of(rest)?)),
        "hex" => Ok((value_of(alloc, Kind::Binary, rest)?, Kind::Text)),
        "repeat" => Ok((repeated(alloc, rest)?, Kind::Text)),
        _ => {
            let kind = kind_of(name)?;
            Ok((value_of(alloc, kind, rest)?, kind))
        }
    }
}

fn value_of(alloc: Global, kind: Kind, text: &str) -> Result<Value> {
    match kind {
        Kind::Bool => Ok(Value::Bool(text.parse()?)),
        Kind::Text => Ok(Value::Bytes(ByteList::of(alloc, text.as_bytes())?)),
        Kind::Binary => Ok(Value::Bytes(ByteList::from_vec(decode(alloc, text)?))),
        Kind::Decimal { .. } => Ok(Value::Dec(text.parse()?)),
        _ => Ok(Value::Int(text.parse()?)),
    }
}

fn repeated(alloc: Global, text: &str) -> Result<Value> {
    let (count, piece) = text.split_once(':').context("no count")?;
    let count: u32 = count.parse()?;
    let mut bytes = Vec::new(alloc);
    for _ in 0..count {
        bytes.extend_from_slice(piece.as_bytes())?;
    }
    Ok(Value::Bytes(ByteList::from_vec(bytes)))
}

/// What is called, by `NAME:KIND` or `NAME:KIND:MODE`, with these arguments.
fn expr_of(alloc: Global, head: &str, items: Vec<Expr>) -> Result<Expr> {
    let (name, result) = head.split_once(':').context("no result")?;
    let (kind, mode) = result_of(result)?;
    let ty = nullable(kind);
    match name {
        "if_then" => if_then(alloc, items, ty),
        "switch" => switch(alloc, items, ty),
        "singular_or_list" => singular_or_list(alloc, items, ty),
        "cast" => cast(alloc, items, false, ty),
        "cast_or_null" => cast(alloc, items, true, ty),
        _ => call(name, mode, items, ty),
    }
}

fn result_of(text: &str) -> Result<(Kind, Overflow)> {
    match text.split_once(':') {
        Some((kind, mode)) => Ok((kind_of(kind)?, mode_of(mode)?)),
        None => Ok((kind_of(text)?, Overflow::Error)),
    }
}

fn call(name: &str, mode: Overflow, items: Vec<Expr>, ty: Ty) -> Result<Expr> {
    Ok(Expr::Call {
        func: func_of(name)?,
        mode,
        args: Items::from_vec(items),
        ty,
    })
}

/// `if_then`: conditions, each with its value, and the else.
fn if_then(alloc: Global, mut items: Vec<Expr>, ty: Ty) -> Result<Expr> {
    let other = Boxed::new(alloc, items.pop().context("no else")?)?;
    let arms = Items::from_vec(pairs_of(alloc, items)?);
    Ok(Expr::If { arms, other, ty })
}

fn pairs_of(alloc: Global, items: Vec<Expr>) -> Result<Vec<(Expr, Expr)>, NoMemory> {
    let mut pairs = Vec::new(alloc);
    let mut first = None;
    for item in items {
        match first.take() {
            Some(one) => pairs.push((one, item))?,
            None => first = Some(item),
        }
    }
    Ok(pairs)
}

/// `switch`: the subject, literals, each with its value, and the else.
fn switch(alloc: Global, mut items: Vec<Expr>, ty: Ty) -> Result<Expr> {
    let other = Boxed::new(alloc, items.pop().context("no else")?)?;
    let subject = Boxed::new(alloc, first_of(&mut items)?)?;
    let arms = Items::from_vec(choices_of(alloc, items)?);
    Ok(Expr::Switch {
        subject,
        arms,
        other,
        ty,
    })
}

fn first_of(items: &mut Vec<Expr>) -> Result<Expr> {
    if items.is_empty() {
        bail!("no value");
    }
    Ok(items.remove(0))
}

fn choices_of(alloc: Global, items: Vec<Expr>) -> Result<Vec<(Value, Expr)>> {
    let mut choices = Vec::new(alloc);
    let mut literal = None;
    for item in items {
        match literal.take() {
            Some(value) => choices.push((value, item))?,
            None => literal = Some(literal_of(item)?),
        }
    }
    Ok(choices)
}

fn literal_of(expr: Expr) -> Result<Value> {
    match expr {
        Expr::Const { value, .. } => Ok(value),
        _ => bail!("no literal"),
    }
}

/// `singular_or_list`: the value, and the options.
fn singular_or_list(alloc: Global, mut items: Vec<Expr>, ty: Ty) -> Result<Expr> {
    let value = Boxed::new(alloc, first_of(&mut items)?)?;
    let options = Items::from_vec(items);
    Ok(Expr::OneOf { value, options, ty })
}

fn cast(alloc: Global, mut items: Vec<Expr>, null_on_fail: bool, ty: Ty) -> Result<Expr> {
    let input = Boxed::new(alloc, items.pop().context("nothing to cast")?)?;
    Ok(Expr::Cast {
        input,
        null_on_fail,
        ty,
    })
}
