//! A document with the values of variants that have floats as texts.
ghost use Rattle.std.specs.Prelude.{◌≡◌, ◌++◌, OnOk};
ghost use Rattle.json.specs.Tree.{HasNumbers, MembersHaveNumbers, json_tokens, members_tokens};
ghost use Rattle.json.specs.Value.{members_view, value_view};
ghost use Rattle.spelled_numbers.specs.Floats.{each_member, in_object, spelled};
ghost use Rattle.spelled_numbers.specs.View.{member_of};

use crate::variants::has_floats;
use json::{Value, Writer, to_vec};
use simdutf8::basic;
use std::alloc::{AllocError, Global};

/// The objects on the way from a document to the values of variants.
#[derive(Clone, Copy)]
pub(crate) enum Level {
    /// The document.
    Document,
    /// Its `flags`.
    Flags,
    /// A flag.
    Flag,
    /// Its `variants`.
    Variants,
}

/// Writes a value, its members by the level if it is an object.
#[cycle(write)]
pub(crate) fn write_object(
    alloc: Global,
    writer: &mut Writer,
    level: Level,
    value: &Value<'_>,
) -> Result<(), AllocError>
    requires { HasNumbers (value_view value.now) }
    ensures tokens { OnOk result (writer.new.tokens ≡ writer.old.tokens ++ json_tokens (in_object (member_of level) (value_view value.now))) }
    ensures before { writer.new.before ≡ writer.old.before }
{
    match value {
        Value::Object(members) => {
            writer.begin_object()?;
            write_members(alloc, writer, level, members)
        }
        _ => writer.value(value),
    }
}

/// Writes the members of an object by its level, and its end.
#[cycle(write)]
fn write_members(
    alloc: Global,
    writer: &mut Writer,
    level: Level,
    members: &Vec<(&str, Value<'_>)>,
) -> Result<(), AllocError>
    requires { MembersHaveNumbers (members_view members.now.items) }
    ensures tokens { OnOk result (writer.new.tokens ≡ writer.old.tokens ++ members_tokens (each_member (member_of level) (members_view members.now.items))) }
    ensures before { writer.new.before ≡ writer.old.before }
{
    for (name, value) in members {
        writer.key(name)?;
        write_member(alloc, writer, level, name, value)?;
    }
    writer.end_object()
}

/// Writes the value of a member of an object of the level.
#[cycle(write)]
fn write_member(
    alloc: Global,
    writer: &mut Writer,
    level: Level,
    name: &str,
    value: &Value<'_>,
) -> Result<(), AllocError>
    requires { HasNumbers (value_view value.now) }
    ensures tokens { OnOk result (writer.new.tokens ≡ writer.old.tokens ++ json_tokens (member_of level name.now (value_view value.now))) }
    ensures before { writer.new.before ≡ writer.old.before }
{
    match level {
        Level::Document => {
            if name == "flags" {
                return write_object(alloc, writer, Level::Flags, value);
            }
            writer.value(value)
        }
        Level::Flags => write_object(alloc, writer, Level::Flag, value),
        Level::Flag => {
            if name == "variants" && has_floats(value) {
                return write_object(alloc, writer, Level::Variants, value);
            }
            writer.value(value)
        }
        Level::Variants => write_spelled(alloc, writer, value),
    }
}

/// Writes the text of a value as a text.
fn write_spelled(alloc: Global, writer: &mut Writer, value: &Value<'_>) -> Result<(), AllocError>
    requires { HasNumbers (value_view value.now) }
    ensures tokens { OnOk result (writer.new.tokens ≡ writer.old.tokens ++ json_tokens (spelled (value_view value.now))) }
    ensures before { writer.new.before ≡ writer.old.before }
{
    let bytes = to_vec(alloc, value)?;
    match basic::from_utf8(bytes.as_slice()) {
        Ok(text) => writer.string(text),
        Err(_) => writer.string(""),
    }
}
