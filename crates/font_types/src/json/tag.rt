//! Tags as strings of their four bytes.

ghost use Rattle.std.specs.Prelude.{◌≡◌, IsUtf8};
ghost use Rattle.serde_json.specs.{Data.string, Find.as_str};
ghost use Rattle.font_base.specs.Bytes.{are_bytes};
ghost use Rattle.font_tags.specs.Tag.{tag_bytes};
ghost use Rattle.font_types.specs.Json.{IsTagRefused, ConvertsTagString, TagComesBack};
ghost use Rattle.font_types.specs.Json.Laws.{tag_form};

use super::{JsonFault, JsonScalar, text_or_fault};
use font_base::Scalar;
use font_tags::Tag;
use serde_json::Value;
use std::alloc::Global;

impl JsonScalar for Tag {
    ghost form = { tag_form };

    fn to_json(self, alloc: Global) -> Result<Value, JsonFault> {
        let bytes = self.to_raw();
        let Ok(text) = str::from_utf8(&bytes) else {
            return Err(JsonFault::NotUtf8);
        };
        Ok(Value::String(String::from_str(alloc, text)?))
    }

    fn from_json(value: &Value) -> Result<Tag, JsonFault> {
        match Tag::new_checked(text_or_fault(value)?.as_bytes()) {
            Ok(tag) => Ok(tag),
            Err(_) => Err(JsonFault::InvalidTag),
        }
    }
}
