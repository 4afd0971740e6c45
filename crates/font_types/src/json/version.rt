//! `MajorMinor` as an object.

ghost use Rattle.std.specs.Prelude.{◌≡◌, ◌^◌, ◌&&◌, nat_lt, pos};
ghost use Rattle.std.specs.Result.{result_map_both};
ghost use Rattle.serde_json.specs.View.{view};
ghost use Rattle.font_types.specs.Json.{version_form, ConvertsVersion, member_number};
ghost use Rattle.font_types.specs.Json.Laws.{version_form_of};
ghost use Rattle.font_types.specs.declared.json.JsonFault.TheVariants.{Memory};

use super::{JsonFault, JsonScalar, natural};
use font_tags::MajorMinor;
use serde_json::{Value, json};
use std::alloc::Global;

impl JsonScalar for MajorMinor {
    ghost form = { version_form_of };

    fn to_json(self, alloc: Global) -> Result<Value, JsonFault> {
        let MajorMinor { major, minor } = self;
        Ok(json!(in alloc; { "major": major, "minor": minor })?)
    }

    fn from_json(value: &Value) -> Result<MajorMinor, JsonFault> {
        if !value.is_object() {
            return Err(JsonFault::WrongKind);
        }
        let major = member(value, "major")?;
        let minor = member(value, "minor")?;
        Ok(MajorMinor { major, minor })
    }
}

// Returns a member that is a 16-bit integer.
fn member(value: &Value, name: &str) -> Result<u16, JsonFault>
    ensures { result_map_both (λ n. pos n) (λ fault. fault) result
        ≡ member_number name.now (view value.now) }
{
    let number = value.get(name).ok_or(JsonFault::MissingMember)?;
    Ok(natural(number, 0xFFFF)? as u16)
}
