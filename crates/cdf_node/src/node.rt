ghost use Rattle.std.specs.Prelude.{◌≡◌, false, is_some, option_map, option_and_then, unwrap_or};
ghost use Rattle.std.specs.Prelude.{string_bytes, IfOk, OnOk};
ghost use Rattle.json.specs.Lex.{tokens};
ghost use Rattle.json.specs.Print.{print};
ghost use Rattle.serde_json.specs.Find.{get, as_bool, as_number, as_u64, as_str, as_array};
ghost use Rattle.serde_json.specs.Find.{as_object, is_float};
ghost use Rattle.serde_json.specs.Written.{has_float, compact_text, IsInOrder};
ghost use Rattle.cdf_node.specs.View.{view, number_view, items_view, members_view};
ghost use Rattle.cdf_node.specs.Written.{WritesValue};

use crate::member::find;
use crate::write::write_value;
use json::Writer;
use serde_json::Number;
use std::alloc::{AllocError, Global};

/// A JSON value, whose texts are borrowed and whose items and members stand in an arena.
#[derive(Clone, Copy)]
pub enum Node<'t> {
    Null,
    Bool(bool),
    Number(Number),
    String(&'t str),
    Array(&'t [Node<'t>]),
    Object(&'t [(&'t str, Node<'t>)]),
}

impl<'t> Node<'t> {
    /// The value at a name of an object; anything else has none.
    pub fn get(&self, name: &str) -> Option<&'t Node<'t>>
        ensures { option_map (λ v. view v.now) result ≡ get name.now (view self.now) }
    {
        match self {
            Node::Object(members) => find(members, name),
            _ => None,
        }
    }

    /// Whether it is an object.
    pub fn is_object(&self) -> bool
        ensures { result ≡ is_some (as_object (view self.now)) }
    {
        self.as_object().is_some()
    }

    /// Whether it is a number that serde_json keeps as a float.
    pub fn is_f64(&self) -> bool
        ensures { result ≡ unwrap_or (option_map is_float (as_number (view self.now))) false }
    {
        match self.as_number() {
            Some(number) => number.is_f64(),
            None => false,
        }
    }

    /// The truth value that it is.
    pub fn as_bool(&self) -> Option<bool>
        ensures { result ≡ as_bool (view self.now) }
    {
        if let Node::Bool(truth) = self {
            Some(*truth)
        } else {
            None
        }
    }

    /// The number that it is.
    pub fn as_number(&self) -> Option<&Number>
        ensures { option_map (λ n. number_view n.now) result ≡ as_number (view self.now) }
    {
        if let Node::Number(number) = self {
            Some(number)
        } else {
            None
        }
    }

    /// The number that it is, where it is a whole one from 0 to 2^64 - 1.
    pub fn as_u64(&self) -> Option<u64>
        ensures { result ≡ option_and_then as_u64 (as_number (view self.now)) }
    {
        match self.as_number() {
            Some(number) => number.as_u64(),
            None => None,
        }
    }

    /// The text that it is.
    pub fn as_str(&self) -> Option<&'t str>
        ensures { option_map (λ s. s.now) result ≡ as_str (view self.now) }
    {
        if let Node::String(text) = self {
            Some(text)
        } else {
            None
        }
    }

    /// The items of an array.
    pub fn as_array(&self) -> Option<&'t [Node<'t>]>
        ensures { option_map (λ v. items_view v.now) result ≡ as_array (view self.now) }
    {
        if let Node::Array(items) = self {
            Some(items)
        } else {
            None
        }
    }

    /// The members of an object. Where they were read, their names rise.
    pub fn as_object(&self) -> Option<&'t [(&'t str, Node<'t>)]>
        ensures { option_map (λ m. members_view m.now) result ≡ as_object (view self.now) }
    {
        if let Node::Object(members) = self {
            Some(members)
        } else {
            None
        }
    }

    /// The text, with no space in it.
    ///
    /// # Errors
    /// An `AllocError` where a growth was refused.
    pub fn to_string(&self, alloc: Global) -> Result<String, AllocError>
        ensures text { IfOk result (λ s. has_float (view self.now) ≡ false
            → string_bytes s ≡ compact_text (view self.now)) }
        ensures compact { IfOk result (λ s. string_bytes s ≡ print (tokens (string_bytes s))) }
        ensures order { IfOk result (λ s. IsInOrder (string_bytes s) (view self.now)) }
    {
        let mut out = Writer::new(Vec::with_capacity(alloc, 128)?);
        self.write(&mut out)?;
        Ok(unsafe { String::from_utf8_unchecked(out.into_inner()) })
    }

    /// Writes the text, with no space in it.
    ///
    /// # Errors
    /// An `AllocError` where a growth was refused.
    pub fn write(&self, out: &mut Writer) -> Result<(), AllocError>
        ensures ok { OnOk result (WritesValue (view self.now) out.old.tokens out.new.tokens) }
        ensures before { out.new.before ≡ out.old.before }
    {
        write_value(self, out)
    }
}
