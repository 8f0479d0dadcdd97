//! The key for hashing the names of a document or a value: a hash of all its key parts, or of all bytes of a text whose
//! lines are not kept. Names that collide would have to be found under a key that they make themselves.
use crate::tree::hashing::NameHashing;
use std::hash::{DefaultHasher, Hasher};
use toml_text::{Source, Span};
use toml_tree::{Doc, Expr, Key, KeyVal, Line, Piece, Value};

/// The key for hashing names. One of a whole text is made when it is first asked for: most texts have no table with so many names
/// that they are hashed, and a pass over all bytes is saved.
#[derive(Drop)]
pub struct HashKey<'t> {
    key: u64,
    // the text of which the key is still to be made
    unread: Option<Source<'t>>,
}

impl<'t> HashKey<'t> {
    /// This key.
    pub(crate) fn known(key: u64) -> HashKey<'t> {
        HashKey { key, unread: None }
    }

    /// The key that is made of all bytes of a text.
    pub(crate) fn of_text(source: Source<'t>) -> HashKey<'t> {
        HashKey {
            key: 0,
            unread: Some(source),
        }
    }

    /// Hashing with the key.
    pub(crate) fn hashing(&mut self) -> NameHashing {
        if let Some(source) = self.unread {
            self.key = key_of_text(source);
            self.unread = None;
        }
        NameHashing::keyed(self.key)
    }
}

/// A hash of all bytes of a text.
fn key_of_text(source: Source<'_>) -> u64 {
    let mut hasher = DefaultHasher::new();
    let all = Span {
        start: 0,
        end: source.len(),
    };
    hasher.write(source.slice(all).as_bytes());
    hasher.finish()
}

/// A hash of the key parts of a document, in text order.
pub(crate) fn key_of(doc: &Doc<'_>) -> u64 {
    let mut hasher = DefaultHasher::new();
    for line in doc.lines() {
        feed_line(&mut hasher, line);
    }
    hasher.finish()
}

/// A hash of the key parts of a value, in text order.
pub(crate) fn key_in(value: &Value<'_>) -> u64 {
    let mut hasher = DefaultHasher::new();
    feed_value(&mut hasher, value);
    hasher.finish()
}

/// Feeds the hasher the key parts that stand on a line.
fn feed_line(hasher: &mut DefaultHasher, line: &Line<'_>) {
    match line.expr() {
        Expr::Blank(_) => {}
        Expr::KeyVal { keyval, .. } => feed_pair(hasher, keyval),
        Expr::Std { header, .. } | Expr::Array { header, .. } => feed_key(hasher, &header.key),
    }
}

/// Feeds the hasher the parts of a key.
fn feed_key(hasher: &mut DefaultHasher, key: &Key<'_>) {
    feed_part(hasher, &key.first);
    for dotted in &key.rest {
        feed_part(hasher, &dotted.part);
    }
}

/// One part; no key part has the byte FF, which ends it here.
fn feed_part(hasher: &mut DefaultHasher, part: &Piece<'_>) {
    hasher.write(part.text.as_bytes());
    hasher.write_u8(0xFF);
}

/// Feeds the hasher the parts of a pair's key, and then the key parts that stand in its value.
#[cycle(feeding)]
fn feed_pair(hasher: &mut DefaultHasher, pair: &KeyVal<'_>) {
    feed_key(hasher, &pair.assign.key);
    feed_value(hasher, &pair.value);
}

/// Feeds the hasher the key parts that stand in a value.
#[cycle(feeding)]
fn feed_value(hasher: &mut DefaultHasher, value: &Value<'_>) {
    match value {
        Value::Scalar(_, _) => {}
        Value::Array(array) => {
            for item in &array.items {
                feed_value(hasher, &item.value);
            }
        }
        Value::Inline(table) => {
            for pair in &table.pairs {
                feed_pair(hasher, &pair.keyval);
            }
        }
    }
}
