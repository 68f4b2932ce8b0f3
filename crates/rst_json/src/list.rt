//! Arrays and objects.

ghost use Rattle.std.specs.Prelude.{◌++◌, ◌∷◌, ◌≤◌, ◌+◌, [], length, take, drop};
ghost use Rattle.rst_json.specs.Json.{Adds};

use rst_tree::Result;

/// Puts brackets round what was put since the text had `start` bytes: items with a comma before each. The opening bracket takes the place
/// of the first comma.
pub fn enclose(start: usize, left: u8, right: u8, out: &mut Vec<u8>) -> Result<()>
    requires { start ≤ length out.old.items }
    ensures { Adds (take start out.old.items) out.new.items (left ∷ (drop (start + 1) out.old.items ++ right ∷ [])) result }
{
    if start < out.len() {
        out[start] = left;
    } else {
        out.push(left)?;
    }
    out.push(right)?;
    Ok(())
}
